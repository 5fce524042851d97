//! What a mechanism does at one end, in SASL bodies alone.
ghost use Rattle.std.specs.Prelude.{◌≡◌, ◌<◌, ℕ, List, [], ◌∷◌, ◌++◌, IfOk, IfErr, OnOk, OnErr};
ghost use Rattle.amqp_sasl_bodies.specs.declared.sasl_body.SaslBody.{SaslBody};
ghost use Rattle.amqp_sasl_bodies.specs.declared.sasl_code.SaslCode.{SaslCode};
ghost use Rattle.sasl_exchange.specs.declared.error.NegotiationError.{NegotiationError};
ghost use Rattle.sasl_exchange.specs.declared.exchange.Turn.{Turn};
ghost use Rattle.sasl_exchange.specs.declared.exchange.Verdict.{Verdict};
ghost use Rattle.sasl_exchange.specs.Exchange.{OnTaken, OnRefused, refused_with};

use crate::error::NegotiationError;
use amqp_sasl_bodies::sasl_body::SaslBody;
use amqp_sasl_bodies::sasl_code::SaslCode;
use std::alloc::{AllocError, Global};

/// What an end does next.
#[derive(Clone, Copy, Debug, PartialEq, Eq)]
pub enum Turn {
    /// It owes a body.
    Send,
    /// It waits for one.
    Receive,
    /// It has told the other end this outcome, and refuses.
    Refuse(SaslCode),
    /// Its check holds.
    Pass,
}

/// What became of a body that was read.
#[derive(Debug, Drop)]
pub enum Verdict {
    /// It was taken.
    Taken,
    /// It was not, and the negotiation fails.
    Refused(NegotiationError),
}

/// One end of an exchange of SASL bodies (part 5, section 5.3.2).
pub trait Exchange: Drop {
    // The bodies that it was given and those that it sent are these.
    ghost holds: { Self → List SaslBody → List SaslBody → Type 0 };

    // Why it fails with an error, by what it was given and what it sent.
    ghost causes: { Self → NegotiationError → List SaslBody → List SaslBody → Type 0 };

    // The body that it owes.
    ghost owes: { Self → SaslBody → Type 0 };

    // What it does next.
    ghost turn_of: { Self → Turn };

    // How many bodies it may still give or take.
    ghost left: { Self → ℕ };

    // Both were made for the same user.
    ghost same: { Self → Self → Type 0 };

    /// What it does next.
    fn turn(&self) -> Turn
        ensures { result ≡ turn_of self.now };

    /// The body that it owes; the one error is want of memory.
    fn next_body(&self, alloc: Global) -> Result<SaslBody, AllocError>
        requires { turn_of self.now ≡ Turn.Send }
        ensures { IfOk result (λ body. owes self.now body) };

    /// The body that was owed is sent.
    fn on_sent(&mut self)
        requires { turn_of self.old ≡ Turn.Send }
        ensures grows { (body : SaslBody) (given sent : List SaslBody) → owes self.old body → holds self.old given sent → holds self.new given (sent ++ body ∷ []) }
        ensures less { left self.new < left self.old }
        ensures same { same self.old self.new };

    /// Takes a body that was read. Want of memory, and a refusal, leave it as it was.
    fn on_body(&mut self, alloc: Global, body: SaslBody) -> Result<Verdict, AllocError>
        requires { turn_of self.old ≡ Turn.Receive }
        ensures taken { OnTaken result ((given sent : List SaslBody) → holds self.old given sent → holds self.new (given ++ body ∷ []) sent) }
        ensures less { OnTaken result (left self.new < left self.old) }
        ensures same { OnTaken result (same self.old self.new) }
        ensures refused { OnRefused result (λ e. (given sent : List SaslBody) → holds self.old given sent → causes self.old e (given ++ body ∷ []) sent) }
        ensures kept { OnRefused result (λ _. self.new ≡ self.old) }
        ensures err { OnErr result (self.new ≡ self.old) };

    // An end that refuses has a cause.
    ghost refusal: { (x : Self) (code : SaslCode) (given sent : List SaslBody) → turn_of x ≡ Turn.Refuse code → holds x given sent → causes x (refused_with code) given sent };

    ghost same_self: { (x : Self) → same x x };

    ghost same_then: { (x y z : Self) → same x y → same y z → same x z };
}
