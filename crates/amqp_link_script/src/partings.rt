//! The calls that leave a link which a word and its arguments say.
ghost use Rattle.amqp_script.specs.Fields.{Says};
ghost use Rattle.amqp_script.specs.Words.{words_left};
ghost use Rattle.amqp_link_script.specs.Partings.{on_detach_call_in, abandon_call_in, condition_in, error_in, detach_call_in, close_call_in};

use crate::calls::one_name;
use crate::keys::{LinkKey, has_only, timeout, ulong, value_of};
use amqp_link_words::{LinkCall, Parting};
use amqp_script::script::fields::symbol;
use amqp_script::script::line_error::LineError;
use amqp_script::script::words::Words;
use amqp_text::Symbol;
use std::alloc::Global;

const CLOSE_KEYS: [LinkKey; 1] = [LinkKey::Error];

const DETACH_KEYS: [LinkKey; 2] = [LinkKey::Error, LinkKey::Timeout];

#[tactic(auto, unfolding(crate::specs::Partings::on_detach_call_in))]
pub(crate) fn on_detach_call(arguments: Words<'_>) -> Result<LinkCall, LineError>
    ensures { Says (on_detach_call_in (words_left arguments.entry)) result }
{
    let link = one_name(arguments)?;
    Ok(LinkCall::Part {
        link,
        parting: Parting::OnDetach,
    })
}

#[tactic(auto, unfolding(crate::specs::Partings::abandon_call_in))]
pub(crate) fn abandon_call(arguments: Words<'_>) -> Result<LinkCall, LineError>
    ensures { Says (abandon_call_in (words_left arguments.entry)) result }
{
    let link = one_name(arguments)?;
    Ok(LinkCall::Part {
        link,
        parting: Parting::Abandon,
    })
}

/// The condition of an error, if the key is there.
fn condition(alloc: Global, arguments: Words<'_>) -> Result<Option<Symbol>, LineError>
    ensures { Says (condition_in (words_left arguments.entry)) result }
{
    match value_of(arguments, LinkKey::Error) {
        Some(value) => {
            let condition = symbol(alloc, value)?;
            Ok(Some(condition))
        }
        None => Ok(None),
    }
}

/// The condition of the error that the peer is told, if the arguments say one; they have only these keys.
fn error(alloc: Global, keys: &[LinkKey], arguments: Words<'_>) -> Result<Option<Symbol>, LineError>
    ensures { Says (error_in keys.now (words_left arguments.entry)) result }
{
    if !has_only(keys, arguments) {
        return Err(LineError::Outside);
    }
    condition(alloc, arguments)
}

#[tactic(auto, unfolding(crate::specs::Partings::detach_call_in))]
pub(crate) fn detach_call(alloc: Global, arguments: Words<'_>) -> Result<LinkCall, LineError>
    ensures { Says (detach_call_in (words_left arguments.entry)) result }
{
    let mut arguments = arguments;
    let Some(link) = arguments.next() else {
        return Err(LineError::Outside);
    };
    let link = ulong(link)?;
    let error = error(alloc, &DETACH_KEYS, arguments)?;
    let timeout = timeout(arguments)?;
    Ok(LinkCall::Part {
        link,
        parting: Parting::Detach { error, timeout },
    })
}

#[tactic(auto, unfolding(crate::specs::Partings::close_call_in))]
pub(crate) fn close_call(alloc: Global, arguments: Words<'_>) -> Result<LinkCall, LineError>
    ensures { Says (close_call_in (words_left arguments.entry)) result }
{
    let mut arguments = arguments;
    let Some(link) = arguments.next() else {
        return Err(LineError::Outside);
    };
    let link = ulong(link)?;
    let error = error(alloc, &CLOSE_KEYS, arguments)?;
    Ok(LinkCall::Part {
        link,
        parting: Parting::Close { error },
    })
}
