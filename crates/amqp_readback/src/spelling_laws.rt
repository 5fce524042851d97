//! Laws of the one spelling that is written (OASIS AMQP 1.0, part 1, sections 1.2 and 1.6).
ghost use Rattle.std.specs.Prelude.{◌≡◌, ◌++◌, ℕ, List};
ghost use Rattle.amqp_data.specs.Data.{Amqp};
ghost use Rattle.amqp_value.specs.Canonical.{canonical, IsSized};
ghost use Rattle.amqp_value.specs.Grammar.{Spells};
ghost use Rattle.amqp_readback.specs.Values.{IsValue};

/// The canonical bytes of a value, each of whose lengths has room in 32 bits, spell it and no other value; they begin no other
/// spelling of a value, and no other begins them. So it is however deep the value nests.
pub fn canonical_is_the_spelling()
    ensures spells { (v : Amqp) → IsValue v → IsSized v → Spells (canonical v) v }
    ensures alone { (v w : Amqp) → IsValue v → IsSized v → Spells (canonical v) w → v ≡ w }
    ensures apart { (v w : Amqp) (other rest left : List ℕ) → IsValue v → IsSized v → canonical v ++ rest ≡ other ++ left → Spells other w → (canonical v ≡ other) × (v ≡ w) }
{}

/// Whatever is spelled is a value: each scalar is one of its kind, the items of an array are of its kind, and no key comes twice.
pub fn only_values_are_spelled()
    ensures { (text : List ℕ) (v : Amqp) → Spells text v → IsValue v }
{}
