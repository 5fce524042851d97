//! Termini and outcomes that say nothing (OASIS AMQP 1.0, part 3, sections 3.4 and 3.5): each field is absent, or at the standard's
//! default where the type has one.
ghost use Rattle.std.specs.Prelude.{◌≡◌, IfOk, codes};
ghost use Rattle.amqp_codec.specs.Defaults.{default_source, default_target, default_rejected, default_modified};

use amqp_termini::{Modified, Rejected, Source, Target};
use amqp_text::{Symbol, SymbolError};
use std::alloc::{AllocError, Global};

/// The expiry policy of a terminus that says none (section 3.5.6).
fn session_end(alloc: Global) -> Result<Symbol, AllocError>
    ensures { IfOk result (λ s. s ≡ codes "session-end") }
{
    match Symbol::from_slice(alloc, b"session-end") {
        Ok(symbol) => Ok(symbol),
        Err(SymbolError::Memory(error)) => Err(error),
        Err(SymbolError::NotAscii) => unreachable!(),
    }
}

/// A source without an address, which ends with its session (section 3.5.3). The one error is want of memory.
pub fn source(alloc: Global) -> Result<Source, AllocError>
    ensures { IfOk result (λ s. s ≡ default_source) }
{
    let expiry_policy = session_end(alloc)?;
    Ok(Source {
        address: None,
        durable: 0,
        expiry_policy,
        timeout: 0,
        dynamic: false,
        dynamic_node_properties: None,
        distribution_mode: None,
        filter: None,
        default_outcome: None,
        outcomes: None,
        capabilities: None,
    })
}

/// A target without an address, which ends with its session (section 3.5.4). The one error is want of memory.
pub fn target(alloc: Global) -> Result<Target, AllocError>
    ensures { IfOk result (λ t. t ≡ default_target) }
{
    let expiry_policy = session_end(alloc)?;
    Ok(Target {
        address: None,
        durable: 0,
        expiry_policy,
        timeout: 0,
        dynamic: false,
        dynamic_node_properties: None,
        capabilities: None,
    })
}

/// A rejection without an error (section 3.4.3).
pub fn rejected() -> Rejected
    ensures { result ≡ default_rejected }
{
    Rejected { error: None }
}

/// A modification that says nothing of the next delivery (section 3.4.5).
pub fn modified() -> Modified
    ensures { result ≡ default_modified }
{
    Modified {
        delivery_failed: None,
        undeliverable_here: None,
        message_annotations: None,
    }
}
