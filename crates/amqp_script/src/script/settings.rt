//! What a line says of an end as its connection begins (OASIS AMQP 1.0, part 2, section 2.7.1).
ghost use Rattle.amqp_script.specs.Words.{words_left};
ghost use Rattle.amqp_script.specs.Fields.{Says};
ghost use Rattle.amqp_script.specs.Settings.{max_in, channels_in, idle_in, settings_in};

use crate::script::fields::{optional_text, required, text, uint, ushort};
use crate::script::keys::{Key, value_at};
use crate::script::line_error::LineError;
use crate::script::words::Words;
use amqp_words::ConnectionSettings;
use std::alloc::Global;

/// The largest frame in bytes that an end takes where a line does not say it.
const DEFAULT_MAX_FRAME_SIZE: u32 = 262_144;

/// The highest number of a channel where a line does not say it.
const DEFAULT_CHANNEL_MAX: u16 = 255;

fn max_frame_size(arguments: Words<'_>) -> Result<u32, LineError>
    ensures { Says (max_in (words_left arguments.entry)) result }
{
    match value_at(arguments, Key::Max.name()) {
        Some(value) => uint(value),
        None => Ok(DEFAULT_MAX_FRAME_SIZE),
    }
}

fn channel_max(arguments: Words<'_>) -> Result<u16, LineError>
    ensures { Says (channels_in (words_left arguments.entry)) result }
{
    match value_at(arguments, Key::Channels.name()) {
        Some(value) => ushort(value),
        None => Ok(DEFAULT_CHANNEL_MAX),
    }
}

fn idle_time_out(arguments: Words<'_>) -> Result<Option<u32>, LineError>
    ensures { Says (idle_in (words_left arguments.entry)) result }
{
    match value_at(arguments, Key::Idle.name()) {
        Some(value) => {
            let milliseconds = uint(value)?;
            Ok(Some(milliseconds))
        }
        None => Ok(None),
    }
}

/// What the arguments say of an end.
pub fn settings(alloc: Global, arguments: Words<'_>) -> Result<ConnectionSettings, LineError>
    ensures { Says (settings_in (words_left arguments.entry)) result }
{
    let container_id = text(alloc, required(arguments, Key::Id)?)?;
    let hostname = optional_text(alloc, arguments, Key::Host)?;
    let max_frame_size = max_frame_size(arguments)?;
    let channel_max = channel_max(arguments)?;
    let idle_time_out = idle_time_out(arguments)?;
    Ok(ConnectionSettings {
        container_id,
        hostname,
        max_frame_size,
        channel_max,
        idle_time_out,
    })
}
