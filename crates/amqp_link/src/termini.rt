//! Termini that say an address alone, and the Flows of links (OASIS AMQP 1.0, part 2, section 2.7.4, and part 3, sections 3.5.3 and
//! 3.5.4).
ghost use Rattle.std.specs.Prelude.{◌≡◌, IfOk, codes};
ghost use Rattle.amqp_link.specs.Numbers.{link_flow};
ghost use Rattle.amqp_link.specs.Termini.{source_at, target_at};

use amqp_data::{Symbol, Text};
use amqp_frames::amqp_performatives::flow::Flow;
use amqp_frames::amqp_termini::{Source, Target};
use std::alloc::{AllocError, Global};

/// The expiry policy of a terminus that says none.
fn session_end(alloc: Global) -> Result<Symbol, AllocError>
    ensures { IfOk result (λ s. s ≡ codes "session-end") }
{
    match Symbol::from_slice(alloc, b"session-end") {
        Ok(symbol) => Ok(symbol),
        Err(_) => Err(AllocError),
    }
}

/// A source with that address and default fields; `dynamic` asks for a node that is to be made.
pub fn source_at(alloc: Global, address: Option<Text>, dynamic: bool) -> Result<Source, AllocError>
    ensures { IfOk result (λ s. s ≡ source_at address dynamic) }
{
    let expiry_policy = session_end(alloc)?;
    Ok(Source {
        address,
        durable: 0,
        expiry_policy,
        timeout: 0,
        dynamic,
        dynamic_node_properties: None,
        distribution_mode: None,
        filter: None,
        default_outcome: None,
        outcomes: None,
        capabilities: None,
    })
}

/// A target with that address and default fields; `dynamic` asks for a node that is to be made.
pub fn target_at(alloc: Global, address: Option<Text>, dynamic: bool) -> Result<Target, AllocError>
    ensures { IfOk result (λ t. t ≡ target_at address dynamic) }
{
    let expiry_policy = session_end(alloc)?;
    Ok(Target {
        address,
        durable: 0,
        expiry_policy,
        timeout: 0,
        dynamic,
        dynamic_node_properties: None,
        capabilities: None,
    })
}

/// The state of a link's credit; what it says of the session is that session's to fill in.
pub fn link_flow(handle: u32, delivery_count: u32, link_credit: u32, drain: bool) -> Flow
    ensures { result ≡ link_flow handle delivery_count link_credit drain }
{
    Flow {
        next_incoming_id: None,
        incoming_window: 0,
        next_outgoing_id: 0,
        outgoing_window: 0,
        handle: Some(handle),
        delivery_count: Some(delivery_count),
        link_credit: Some(link_credit),
        available: None,
        drain,
        echo: false,
        properties: None,
    }
}
