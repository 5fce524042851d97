//! A client with one session.
ghost use Rattle.std.specs.Prelude.{OnOk, IfErr};
ghost use Rattle.amqp_serve.specs.Answers.{IsHonest};
ghost use Rattle.amqp_serve.specs.Ran.{RanOn};

use amqp_end::End;
use amqp_net::WaitLink;
use amqp_serve::Failure;
use amqp_serve::connecting::settle;
use amqp_served::{Moments, Names};
use amqp_served_calls::{begin, open};
use amqp_text::Text;
use sasl_gate::SaslProfile;
use std::sync::Wait;

/// Opens the connection and begins a session; the name of the session. The peer is asked for no heartbeats, since a run that is to end
/// in a given time has a limit of its own.
#[tactic(auto, using(amqp_serve::proofs::Runs::ran_on))]
pub fn enter<R: Wait + AllocGlobal, L: WaitLink, M: Moments>(
    rt: &R,
    end: &mut End<L>,
    moments: &mut M,
    names: &mut Names,
    host: Option<Text>,
    sasl: Option<SaslProfile>,
) -> Result<u64, Failure>
    ensures entered { OnOk result (RanOn L.Link end.old end.new) }
    ensures honest { IfErr result IsHonest }
{
    let call = open(rt.alloc(), host, None, sasl)?;
    settle(rt, end, moments, names.give(), call)?;
    let session = names.give();
    settle(rt, end, moments, session, begin())?;
    Ok(session)
}
