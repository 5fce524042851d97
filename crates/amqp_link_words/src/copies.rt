//! Copies of what a link is built with. The one error of each is want of memory.
ghost use Rattle.std.specs.Prelude.{◌≡◌, IfOk};

use amqp_receiver::ReceiverSettings;
use amqp_sender::SenderSettings;
use amqp_sender::amqp_link::AcceptSettings;
use amqp_text::{Symbol, Text};
use std::alloc::{AllocError, Global};

/// A copy of a text, if there is one.
fn copied_text(alloc: Global, text: &Option<Text>) -> Result<Option<Text>, AllocError>
    ensures { IfOk result (λ t. t ≡ text.now) }
{
    match text {
        Some(text) => {
            let text = text.try_clone(alloc)?;
            Ok(Some(text))
        }
        None => Ok(None),
    }
}

/// A copy of a condition, if there is one.
pub(crate) fn copied_condition(
    alloc: Global,
    condition: &Option<Symbol>,
) -> Result<Option<Symbol>, AllocError>
    ensures { IfOk result (λ s. s ≡ condition.now) }
{
    match condition {
        Some(condition) => {
            let condition = condition.try_clone(alloc)?;
            Ok(Some(condition))
        }
        None => Ok(None),
    }
}

/// A copy of what a sender is built with.
pub(crate) fn copied_sender(
    alloc: Global,
    settings: &SenderSettings,
) -> Result<SenderSettings, AllocError>
    ensures { IfOk result (λ s. s ≡ settings.now) }
{
    let name = settings.name.try_clone(alloc)?;
    let source = copied_text(alloc, &settings.source)?;
    let target = copied_text(alloc, &settings.target)?;
    Ok(SenderSettings {
        name,
        source,
        target,
        dynamic: settings.dynamic,
        snd_settle_mode: settings.snd_settle_mode,
        rcv_settle_mode: settings.rcv_settle_mode,
        max_message_size: settings.max_message_size,
        initial_delivery_count: settings.initial_delivery_count,
        verify: settings.verify,
    })
}

/// A copy of what a receiver is built with.
pub(crate) fn copied_receiver(
    alloc: Global,
    settings: &ReceiverSettings,
) -> Result<ReceiverSettings, AllocError>
    ensures { IfOk result (λ s. s ≡ settings.now) }
{
    let name = settings.name.try_clone(alloc)?;
    let source = copied_text(alloc, &settings.source)?;
    let target = copied_text(alloc, &settings.target)?;
    Ok(ReceiverSettings {
        name,
        source,
        target,
        dynamic: settings.dynamic,
        snd_settle_mode: settings.snd_settle_mode,
        rcv_settle_mode: settings.rcv_settle_mode,
        max_message_size: settings.max_message_size,
        credit_mode: settings.credit_mode,
        auto_accept: settings.auto_accept,
        verify: settings.verify,
    })
}

/// A copy of what a link that is accepted is built with.
pub(crate) fn copied_accept(
    alloc: Global,
    settings: &AcceptSettings,
) -> Result<AcceptSettings, AllocError>
    ensures { IfOk result (λ s. s ≡ settings.now) }
{
    let dynamic_address = copied_text(alloc, &settings.dynamic_address)?;
    Ok(AcceptSettings {
        max_message_size: settings.max_message_size,
        initial_delivery_count: settings.initial_delivery_count,
        dynamic_address,
    })
}
