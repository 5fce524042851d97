//! What follows of the grammar.
ghost use Rattle.std.specs.Prelude.{◌≡◌, ℕ, List, map};
ghost use Rattle.amqp_words.specs.declared.step.Step.{Step as ConnectionStep};
ghost use Rattle.amqp_calls.specs.declared.step.Step.{Step};
ghost use Rattle.amqp_calls.specs.Plain.{plain_steps};
ghost use Rattle.amqp_script.specs.Script.{Spells as SpellsConnections, IsFirstBad as IsFirstBadOfConnections};
ghost use Rattle.amqp_session_script.specs.Line.{step_among};
ghost use Rattle.amqp_session_script.specs.Script.{Spells, IsFirstBad, HasNoSessionWords};

/// A script whose steps make no call for a session or a link says the same steps in the grammar of connections.
#[tactic(auto, using(crate::proofs::Plains::plain_spelled))]
pub fn says_connections_alone()
    ensures { (text : List ℕ) (steps : List Step) (plain : List ConnectionStep) → Spells text steps → plain_steps steps ≡ Some plain → SpellsConnections text plain }
{}

/// A script of connections says the same steps here, none of which makes a call for a session or a link.
#[tactic(auto, using(crate::proofs::Plains::script_kept, crate::proofs::Plains::among_plain))]
pub fn keeps_scripts_of_connections()
    ensures same { (text : List ℕ) (plain : List ConnectionStep) → SpellsConnections text plain → Spells text (map step_among plain) }
    ensures alone { (plain : List ConnectionStep) → plain_steps (map step_among plain) ≡ Some plain }
{}

/// Of a script without words of sessions and links both grammars say the same: the steps, or the first line outside them.
#[tactic(auto, using(crate::proofs::Plains::script_alike, crate::proofs::Plains::bad_alike, crate::proofs::Plains::bad_kept))]
pub fn reads_connections_alike()
    ensures steps { (text : List ℕ) (steps : List Step) → HasNoSessionWords text → Spells text steps → (plain : List ConnectionStep) × (SpellsConnections text plain × (steps ≡ map step_among plain)) }
    ensures bad { (text : List ℕ) (n : ℕ) → HasNoSessionWords text → IsFirstBad text n → IsFirstBadOfConnections text n }
    ensures kept { (text : List ℕ) (n : ℕ) → HasNoSessionWords text → IsFirstBadOfConnections text n → IsFirstBad text n }
{}
