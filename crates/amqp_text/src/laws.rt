//! Equality tells exactly whether two are the same.
ghost use Rattle.std.specs.Prelude.{◌≡◌, ◌↔◌, List, ℕ, IsTrue};

use crate::binary::Binary;
use crate::symbol::{Symbol, SymbolList};
use crate::text::Text;

/// Two of a type are equal exactly where their bytes are the same: of lists of symbols, symbol by symbol.
pub fn equal_is_the_same()
    ensures binaries { (x y : List ℕ) → IsTrue (⟦<Binary as PartialEq>⟧.eq x y) ↔ (x ≡ y) }
    ensures texts { (x y : List ℕ) → IsTrue (⟦<Text as PartialEq>⟧.eq x y) ↔ (x ≡ y) }
    ensures symbols { (x y : List ℕ) → IsTrue (⟦<Symbol as PartialEq>⟧.eq x y) ↔ (x ≡ y) }
    ensures lists { (x y : List (List ℕ)) → IsTrue (⟦<SymbolList as PartialEq>⟧.eq x y) ↔ (x ≡ y) }
{}
