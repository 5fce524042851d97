//! Laws of a stream of bytes whose content may be told.
ghost use Rattle.std.specs.Prelude.{List, ℕ, [], ◌++◌, Option};
ghost use Rattle.list_laws.specs.Told.{Loses, Gains};

/// A stream that is as it was has lost no bytes.
pub fn loses_none()
    ensures { (a : Option (List ℕ)) → Loses a a [] }
{}

/// A stream that is as it was has gained no bytes.
pub fn gains_none()
    ensures { (a : Option (List ℕ)) → Gains a a [] }
{}

/// Two losses are one loss of the bytes joined.
pub fn loses_then()
    ensures { (a b c : Option (List ℕ)) (r s : List ℕ) → Loses a b r → Loses b c s → Loses a c (r ++ s) }
{}

/// Two gains are one gain of the bytes joined.
pub fn gains_then()
    ensures { (a b c : Option (List ℕ)) (r s : List ℕ) → Gains a b r → Gains b c s → Gains a c (r ++ s) }
{}
