//! What a line says of an end of a link (OASIS AMQP 1.0, part 2, section 2.7.3).
ghost use Rattle.amqp_script.specs.Fields.{Says};
ghost use Rattle.amqp_script.specs.Words.{words_left};
ghost use Rattle.amqp_link_script.specs.Settings.{sender_mode_of, sender_mode_in, receiver_mode_of, receiver_mode_in, credit_mode_of, credit_mode_in, link_name_in, sender_of, sender_in, receiver_of, receiver_in, accept_of, accept_in};

use crate::keys::{LinkKey, count, flag, has_only, max_message_size, optional_text, value_of};
use amqp_composites::modes::{ReceiverSettleMode, SenderSettleMode};
use amqp_delivery::CreditMode;
use amqp_link::AcceptSettings;
use amqp_receiver::ReceiverSettings;
use amqp_script::script::fields::{text, uint};
use amqp_script::script::line_error::LineError;
use amqp_script::script::words::{Words, is_text};
use amqp_sender::SenderSettings;
use amqp_text::Text;
use std::alloc::Global;

/// The credit in deliveries that a receiver gives again and again where a line does not say it.
const DEFAULT_CREDIT: u32 = 200;

const SENDER_KEYS: [LinkKey; 8] = [
    LinkKey::Name,
    LinkKey::Source,
    LinkKey::Target,
    LinkKey::Snd,
    LinkKey::Rcv,
    LinkKey::Max,
    LinkKey::Count,
    LinkKey::Dynamic,
];

const RECEIVER_KEYS: [LinkKey; 9] = [
    LinkKey::Name,
    LinkKey::Source,
    LinkKey::Target,
    LinkKey::Snd,
    LinkKey::Rcv,
    LinkKey::Max,
    LinkKey::Credit,
    LinkKey::Auto,
    LinkKey::Dynamic,
];

const ACCEPT_KEYS: [LinkKey; 5] = [
    LinkKey::Max,
    LinkKey::Credit,
    LinkKey::Auto,
    LinkKey::Count,
    LinkKey::Dyn,
];

fn read_sender_mode(word: &[u8]) -> Result<SenderSettleMode, LineError>
    ensures { Says (sender_mode_of word.now) result }
{
    if is_text(word, b"unsettled") {
        return Ok(SenderSettleMode::Unsettled);
    }
    if is_text(word, b"settled") {
        return Ok(SenderSettleMode::Settled);
    }
    if is_text(word, b"mixed") {
        return Ok(SenderSettleMode::Mixed);
    }
    Err(LineError::Outside)
}

fn sender_mode(arguments: Words<'_>) -> Result<SenderSettleMode, LineError>
    ensures { Says (sender_mode_in (words_left arguments.entry)) result }
{
    match value_of(arguments, LinkKey::Snd) {
        Some(value) => read_sender_mode(value),
        None => Ok(SenderSettleMode::Mixed),
    }
}

fn read_receiver_mode(word: &[u8]) -> Result<ReceiverSettleMode, LineError>
    ensures { Says (receiver_mode_of word.now) result }
{
    if is_text(word, b"first") {
        return Ok(ReceiverSettleMode::First);
    }
    if is_text(word, b"second") {
        return Ok(ReceiverSettleMode::Second);
    }
    Err(LineError::Outside)
}

fn receiver_mode(arguments: Words<'_>) -> Result<ReceiverSettleMode, LineError>
    ensures { Says (receiver_mode_in (words_left arguments.entry)) result }
{
    match value_of(arguments, LinkKey::Rcv) {
        Some(value) => read_receiver_mode(value),
        None => Ok(ReceiverSettleMode::First),
    }
}

/// When credit is given.
pub fn read_credit_mode(word: &[u8]) -> Result<CreditMode, LineError>
    ensures { Says (credit_mode_of word.now) result }
{
    if is_text(word, b"manual") {
        return Ok(CreditMode::Manual);
    }
    let credit = uint(word)?;
    Ok(CreditMode::Auto(credit))
}

fn credit_mode(arguments: Words<'_>) -> Result<CreditMode, LineError>
    ensures { Says (credit_mode_in (words_left arguments.entry)) result }
{
    match value_of(arguments, LinkKey::Credit) {
        Some(value) => read_credit_mode(value),
        None => Ok(CreditMode::Auto(DEFAULT_CREDIT)),
    }
}

/// The name of a link, which has to be there.
fn link_name(alloc: Global, arguments: Words<'_>) -> Result<Text, LineError>
    ensures { Says (link_name_in (words_left arguments.entry)) result }
{
    match value_of(arguments, LinkKey::Name) {
        Some(value) => text(alloc, value),
        None => Err(LineError::Outside),
    }
}

#[tactic(auto, unfolding(crate::specs::Settings::sender_of))]
fn sender_fields(alloc: Global, arguments: Words<'_>) -> Result<SenderSettings, LineError>
    ensures { Says (sender_of (words_left arguments.entry)) result }
{
    let name = link_name(alloc, arguments)?;
    let source = optional_text(alloc, arguments, LinkKey::Source)?;
    let target = optional_text(alloc, arguments, LinkKey::Target)?;
    let dynamic = flag(arguments, LinkKey::Dynamic)?;
    let snd_settle_mode = sender_mode(arguments)?;
    let rcv_settle_mode = receiver_mode(arguments)?;
    let max_message_size = max_message_size(arguments)?;
    let initial_delivery_count = count(arguments)?;
    Ok(SenderSettings {
        name,
        source,
        target,
        dynamic,
        snd_settle_mode,
        rcv_settle_mode,
        max_message_size,
        initial_delivery_count,
        verify: true,
    })
}

/// What the arguments say of a sender.
pub fn sender(alloc: Global, arguments: Words<'_>) -> Result<SenderSettings, LineError>
    ensures { Says (sender_in (words_left arguments.entry)) result }
{
    if !has_only(&SENDER_KEYS, arguments) {
        return Err(LineError::Outside);
    }
    sender_fields(alloc, arguments)
}

#[tactic(auto, unfolding(crate::specs::Settings::receiver_of))]
fn receiver_fields(alloc: Global, arguments: Words<'_>) -> Result<ReceiverSettings, LineError>
    ensures { Says (receiver_of (words_left arguments.entry)) result }
{
    let name = link_name(alloc, arguments)?;
    let source = optional_text(alloc, arguments, LinkKey::Source)?;
    let target = optional_text(alloc, arguments, LinkKey::Target)?;
    let dynamic = flag(arguments, LinkKey::Dynamic)?;
    let snd_settle_mode = sender_mode(arguments)?;
    let rcv_settle_mode = receiver_mode(arguments)?;
    let max_message_size = max_message_size(arguments)?;
    let credit_mode = credit_mode(arguments)?;
    let auto_accept = flag(arguments, LinkKey::Auto)?;
    Ok(ReceiverSettings {
        name,
        source,
        target,
        dynamic,
        snd_settle_mode,
        rcv_settle_mode,
        max_message_size,
        credit_mode,
        auto_accept,
        verify: true,
    })
}

/// What the arguments say of a receiver.
pub fn receiver(alloc: Global, arguments: Words<'_>) -> Result<ReceiverSettings, LineError>
    ensures { Says (receiver_in (words_left arguments.entry)) result }
{
    if !has_only(&RECEIVER_KEYS, arguments) {
        return Err(LineError::Outside);
    }
    receiver_fields(alloc, arguments)
}

#[tactic(auto, unfolding(crate::specs::Settings::accept_of))]
fn accept_fields(
    alloc: Global,
    arguments: Words<'_>,
) -> Result<(AcceptSettings, CreditMode, bool), LineError>
    ensures { Says (accept_of (words_left arguments.entry)) result }
{
    let max_message_size = max_message_size(arguments)?;
    let initial_delivery_count = count(arguments)?;
    let dynamic_address = optional_text(alloc, arguments, LinkKey::Dyn)?;
    let credit_mode = credit_mode(arguments)?;
    let auto_accept = flag(arguments, LinkKey::Auto)?;
    let settings = AcceptSettings {
        max_message_size,
        initial_delivery_count,
        dynamic_address,
    };
    Ok((settings, credit_mode, auto_accept))
}

/// What the arguments say of a link that is accepted; as a receiver when it gives credit, and whether it accepts by itself.
pub fn accept(
    alloc: Global,
    arguments: Words<'_>,
) -> Result<(AcceptSettings, CreditMode, bool), LineError>
    ensures { Says (accept_in (words_left arguments.entry)) result }
{
    if !has_only(&ACCEPT_KEYS, arguments) {
        return Err(LineError::Outside);
    }
    accept_fields(alloc, arguments)
}
