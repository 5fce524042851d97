//! The steps of a script.
ghost use Rattle.std.specs.Prelude.{ℕ, IfOk, IsErrOf};
ghost use Rattle.amqp_run.specs.Script.{Says, IsBadLine};

use amqp_calls::Step;
use amqp_script::ScriptError;
use amqp_session_script::script::parse;
use std::alloc::Global;

/// The steps that a script says, or its first line outside the grammar.
#[tactic(auto, using(crate::proofs::Grammars::says, crate::proofs::Grammars::is_bad_line))]
pub fn steps_of(alloc: Global, script: &[u8]) -> Result<Vec<Step>, ScriptError>
    ensures says { IfOk result (λ steps. Says script.now steps.items) }
    ensures bad { (n : ℕ) → IsErrOf result (ScriptError.Bad n) → IsBadLine script.now n }
{
    parse(alloc, script)
}
