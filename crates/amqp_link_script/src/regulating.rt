//! The calls by which a receiver goes on otherwise, and those of its disposers.
ghost use Rattle.amqp_script.specs.Fields.{Says};
ghost use Rattle.amqp_script.specs.Words.{words_left};
ghost use Rattle.amqp_link_script.specs.Regulating.{credit_mode_call_of, credit_mode_call_in, auto_call_of, auto_call_in, regulating_call_in, disposer_call_in, dispose_by_of, dispose_by_call_in};

use crate::calls::one_name;
use crate::keys::{choice, ulong};
use crate::settings::read_credit_mode;
use amqp_link_words::{Disposal, LinkCall, Regulation};
use amqp_script::script::line_error::LineError;
use amqp_script::script::words::Words;

#[tactic(auto, unfolding(crate::specs::Regulating::credit_mode_call_of))]
fn setting_credit_mode(link: &[u8], mode: &[u8]) -> Result<LinkCall, LineError>
    ensures { Says (credit_mode_call_of link.now mode.now) result }
{
    let link = ulong(link)?;
    let mode = read_credit_mode(mode)?;
    Ok(LinkCall::Regulate {
        link,
        regulation: Regulation::CreditMode(mode),
    })
}

/// What `credit_mode` and its arguments say.
pub(crate) fn credit_mode_call(arguments: Words<'_>) -> Result<LinkCall, LineError>
    ensures { Says (credit_mode_call_in (words_left arguments.entry)) result }
{
    let mut arguments = arguments;
    let (Some(link), Some(mode)) = (arguments.next(), arguments.next()) else {
        return Err(LineError::Outside);
    };
    if arguments.next().is_some() {
        return Err(LineError::Outside);
    }
    setting_credit_mode(link, mode)
}

#[tactic(auto, unfolding(crate::specs::Regulating::auto_call_of))]
fn setting_auto(link: &[u8], value: &[u8]) -> Result<LinkCall, LineError>
    ensures { Says (auto_call_of link.now value.now) result }
{
    let link = ulong(link)?;
    let value = choice(value)?;
    Ok(LinkCall::Regulate {
        link,
        regulation: Regulation::AutoAccept(value),
    })
}

/// What `auto` and its arguments say.
pub(crate) fn auto_call(arguments: Words<'_>) -> Result<LinkCall, LineError>
    ensures { Says (auto_call_in (words_left arguments.entry)) result }
{
    let mut arguments = arguments;
    let (Some(link), Some(value)) = (arguments.next(), arguments.next()) else {
        return Err(LineError::Outside);
    };
    if arguments.next().is_some() {
        return Err(LineError::Outside);
    }
    setting_auto(link, value)
}

/// What the arguments say of a receiver that is to go on so.
#[tactic(auto, unfolding(crate::specs::Regulating::regulating_call_in))]
pub(crate) fn regulating_call(
    arguments: Words<'_>,
    regulation: Regulation,
) -> Result<LinkCall, LineError>
    ensures { Says (regulating_call_in regulation (words_left arguments.entry)) result }
{
    let link = one_name(arguments)?;
    Ok(LinkCall::Regulate { link, regulation })
}

/// What `disposer` and its arguments say.
#[tactic(auto, unfolding(crate::specs::Regulating::disposer_call_in))]
pub(crate) fn disposer_call(arguments: Words<'_>) -> Result<LinkCall, LineError>
    ensures { Says (disposer_call_in (words_left arguments.entry)) result }
{
    let link = one_name(arguments)?;
    Ok(LinkCall::Disposer { link })
}

#[tactic(auto, unfolding(crate::specs::Regulating::dispose_by_of))]
fn disposing_by(disposal: Disposal, disposer: &[u8], delivery: &[u8]) -> Result<LinkCall, LineError>
    ensures { Says (dispose_by_of disposal disposer.now delivery.now) result }
{
    let disposer = ulong(disposer)?;
    let delivery = ulong(delivery)?;
    Ok(LinkCall::DisposeBy {
        disposer,
        disposal,
        delivery,
    })
}

/// What the arguments say of a delivery that a disposer gives that state.
pub(crate) fn dispose_by_call(
    arguments: Words<'_>,
    disposal: Disposal,
) -> Result<LinkCall, LineError>
    ensures { Says (dispose_by_call_in disposal (words_left arguments.entry)) result }
{
    let mut arguments = arguments;
    let (Some(disposer), Some(delivery)) = (arguments.next(), arguments.next()) else {
        return Err(LineError::Outside);
    };
    if arguments.next().is_some() {
        return Err(LineError::Outside);
    }
    disposing_by(disposal, disposer, delivery)
}
