//! What the grammar of values says by itself.
ghost use Rattle.std.specs.Prelude.{◌≡◌, ◌++◌, ℕ, List};
ghost use Rattle.amqp_data.specs.Data.{Amqp};
ghost use Rattle.amqp_value.specs.Grammar.{Spells};

/// No spelling of a value begins another spelling of a value.
pub fn spelling_begins_no_other()
    ensures { (text other rest left : List ℕ) (v w : Amqp) → text ++ rest ≡ other ++ left → Spells text v → Spells other w → (text ≡ other) × (v ≡ w) }
{}
