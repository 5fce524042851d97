//! A law of what an end says: parts of its bytes that are said one behind another are said as the whole is.
ghost use Rattle.std.specs.Prelude.{List, ℕ, ◌++◌, Option, Some};
ghost use Rattle.amqp_show.specs.declared.voice.Side.{Side};
ghost use Rattle.amqp_show.specs.Voice.{Speaks};

/// An end that writes bytes in parts says, part by part, what it says where it writes them at once.
pub fn says_in_parts_what_it_says_at_once()
    ensures { (side : Side) (a b text more left : List ℕ) (end : Option (List ℕ)) → Speaks side a text (Some left) → Speaks side (left ++ b) more end → Speaks side (a ++ b) (text ++ more) end }
{}
