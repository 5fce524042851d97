//! Calls of an end, and the answers to them.
ghost use Rattle.std.specs.Prelude.{◌≡◌, ◌↔◌, Some, OnOk, IfOk, IfErr, IfSome, IsErrOf, IsTrue};
ghost use Rattle.amqp_end.specs.Asks.{MayAsk};
ghost use Rattle.amqp_serve.specs.Answers.{kind_of, IsHonest};
ghost use Rattle.amqp_serve.specs.Ran.{RanSilently, WaitedFor, Took, Asked, AskedNow, Answered, IsStopped};

use crate::answers::{AnswerKind, answer_to, kind_of};
use crate::failure::Failure;
use amqp_calls::{Call, NamedReply, Reply};
use amqp_end::End;
use amqp_net::WaitLink;
use amqp_served::Moments;
use std::sync::Wait;

/// Whether an answer says that a call failed.
pub fn is_error(reply: &Reply) -> bool
    ensures { IsTrue result ↔ (kind_of reply.now ≡ AnswerKind.Failed) }
{
    match kind_of(reply) {
        AnswerKind::Failed => true,
        AnswerKind::Pending | AnswerKind::Granted => false,
    }
}

/// The answers that are there.
pub(crate) fn take_replies<L: WaitLink>(end: &mut End<L>) -> Vec<NamedReply>
    ensures took { Took end.old end.new }
    ensures replies { result.items ≡ end.old.replies.items }
{
    end.replies()
}

/// Forgets what the call of that name sent or was given, which no later call names: so an end does not grow with each message.
#[tactic(auto, using(crate::proofs::Runs::silent_forgot))]
pub fn forget<L: WaitLink>(end: &mut End<L>, name: u64)
    ensures { RanSilently L.Link end.old end.new }
{
    end.forget(name);
}

/// Lets a call go that may not be made.
pub(crate) fn let_go(_call: Call) {}

/// Makes a call, where it may be made, and gives the answer that is there at once, if any is.
#[tactic(auto, using(crate::proofs::Runs::asked_now))]
pub fn ask_now<L: WaitLink, M: Moments>(
    end: &mut End<L>,
    moments: &mut M,
    name: u64,
    call: Call,
) -> Result<Option<Reply>, Failure>
    ensures asked { IfOk result (λ answer. AskedNow L.Link end.old end.new name call answer) }
    ensures over { IsErrOf result Failure.Over ↔ ¬ (MayAsk end.old name call) }
    ensures honest { IfErr result IsHonest }
{
    if !end.may_call(name, &call) {
        let_go(call);
        return Err(Failure::Over);
    }
    match end.call(moments.now(), name, call) {
        Ok(()) => Ok(answer_to(name, take_replies(end))),
        Err(_) => Err(Failure::Memory),
    }
}

/// Waits until the link may give or take more; whether that could be waited for.
#[tactic(auto, using(crate::proofs::Runs::waited_for))]
fn wait_for<L: WaitLink>(end: &mut End<L>) -> bool
    ensures { WaitedFor L.Link end.old end.new }
{
    end.link().wait()
}

/// Whether the connection has stopped.
#[tactic(auto, using(crate::proofs::Runs::stopped_by, crate::proofs::Runs::not_stopped))]
fn is_stopped<L: WaitLink>(end: &End<L>) -> bool
    ensures { IsTrue result ↔ IsStopped end.now }
{
    match end.stop_reason() {
        Some(_) => true,
        None => false,
    }
}

/// Waits until the link may give or take more, and goes on. Where the connection has stopped nothing comes any more.
#[tactic(auto, using(crate::proofs::Runs::silent_on))]
pub fn go_on<L: WaitLink, M: Moments>(end: &mut End<L>, moments: &mut M) -> Result<(), Failure>
    ensures ran { OnOk result (RanSilently L.Link end.old end.new) }
    ensures over { IsErrOf result Failure.Over ↔ IsStopped end.old }
    ensures honest { IfErr result IsHonest }
{
    if is_stopped(end) {
        return Err(Failure::Over);
    }
    if moments.is_over() {
        return Err(Failure::TimedOut);
    }
    if !wait_for(end) {
        return Err(Failure::Waiting);
    }
    match end.poll(moments.now()) {
        Ok(()) => Ok(()),
        Err(_) => Err(Failure::Memory),
    }
}

/// Goes on behind a call that was answered at once, and before which this many reads had given bytes. Where more have since, the
/// answer may be another by now, and nothing is waited for.
#[tactic(auto, using(crate::proofs::Runs::silent_none))]
pub fn go_on_since<L: WaitLink, M: Moments>(
    end: &mut End<L>,
    moments: &mut M,
    reads: u64,
) -> Result<(), Failure>
    ensures ran { OnOk result (RanSilently L.Link end.old end.new) }
    ensures honest { IfErr result IsHonest }
{
    if end.link_ref().reads() == reads {
        return go_on(end, moments);
    }
    if moments.is_over() {
        return Err(Failure::TimedOut);
    }
    Ok(())
}

/// Goes on, and gives the answer to the call of that name that came.
#[tactic(auto, using(crate::proofs::Runs::asked_later))]
fn ask_again<L: WaitLink, M: Moments>(
    end: &mut End<L>,
    moments: &mut M,
    name: u64,
) -> Result<Option<Reply>, Failure>
    ensures asked { IfOk result (λ answer. Asked L.Link end.old end.new name answer) }
    ensures honest { IfErr result IsHonest }
{
    go_on(end, moments)?;
    Ok(answer_to(name, take_replies(end)))
}

/// The answer, where it is what was asked for; none where there is none yet. An error is a failure.
pub(crate) fn granted(answer: Option<Reply>) -> Result<Option<Reply>, Failure>
    ensures granted { IfOk result (λ x. IfSome x (λ reply. answer ≡ Some reply)) }
    ensures kind { IfOk result (λ x. IfSome x (λ reply. kind_of reply ≡ AnswerKind.Granted)) }
    ensures honest { IfErr result IsHonest }
{
    let Some(reply) = answer else {
        return Ok(None);
    };
    match kind_of(&reply) {
        AnswerKind::Pending => Ok(None),
        AnswerKind::Granted => Ok(Some(reply)),
        AnswerKind::Failed => Err(Failure::Answer(reply)),
    }
}

/// Makes a call, and waits for its last answer. An error is a failure.
#[tactic(auto, using(crate::proofs::Runs::waits_first, crate::proofs::Runs::waits_more, crate::proofs::Runs::answered_by))]
pub fn ask<R: Wait, L: WaitLink, M: Moments>(
    rt: &R,
    end: &mut End<L>,
    moments: &mut M,
    name: u64,
    call: Call,
) -> Result<Reply, Failure>
    ensures answered { IfOk result (λ reply. Answered L.Link end.old end.new name call reply) }
    ensures honest { IfErr result IsHonest }
{
    let mut answer = ask_now(end, moments, name, call)?;
    for _ in rt.forever() {
        if let Some(reply) = granted(answer)? {
            return Ok(reply);
        }
        answer = ask_again(end, moments, name)?;
    }
    unreachable!()
}
