//! Equality, order and hash of binaries, texts and symbols: those of their bytes. Equality of lists of symbols.
ghost use Rattle.std.specs.Str.{bytes_eq};
ghost use Rattle.std.specs.Cmp.Lexicographic.{nat_list_eq_equiv, nat_list_cmp_total, texts_ties, texts_po};
ghost use Rattle.std.proofs.Common.{refl};
ghost use Rattle.amqp_text.specs.Bytes.{bytes_cmp, bytes_partial_cmp, hashed_bytes, bytes_partial_laws, hashed_alike, lists_eq, lists_laws, lists_partial_laws};

use crate::binary::Binary;
use crate::symbol::{Symbol, SymbolList};
use crate::text::Text;
use std::cmp::Ordering;
use std::hash::{Hash, Hasher};

impl PartialEq for Binary {
    ghost eq = { bytes_eq };

    ghost laws = { bytes_partial_laws };

    fn eq(&self, other: &Self) -> bool {
        self.as_slice() == other.as_slice()
    }
}

impl Eq for Binary {
    ghost laws = { nat_list_eq_equiv };
}

impl PartialOrd for Binary {
    ghost partial_cmp = { bytes_partial_cmp };

    ghost laws = { texts_po };

    fn partial_cmp(&self, other: &Self) -> Option<Ordering> {
        Some(self.cmp(other))
    }
}

impl Ord for Binary {
    ghost cmp = { bytes_cmp };

    ghost total = { nat_list_cmp_total };

    ghost matches_partial_cmp = { λ x y. refl };

    ghost matches_eq = { texts_ties };

    fn cmp(&self, other: &Self) -> Ordering {
        Ord::cmp(&self.as_slice(), &other.as_slice())
    }
}

impl Hash for Binary {
    ghost hash_input = { hashed_bytes };

    ghost respects_eq = { hashed_alike };

    fn hash<H: Hasher>(&self, state: &mut H) {
        state.write_usize(self.len());
        state.write(self.as_slice())
    }
}

impl PartialEq for Symbol {
    ghost eq = { bytes_eq };

    ghost laws = { bytes_partial_laws };

    fn eq(&self, other: &Self) -> bool {
        self.as_slice() == other.as_slice()
    }
}

impl Eq for Symbol {
    ghost laws = { nat_list_eq_equiv };
}

impl PartialOrd for Symbol {
    ghost partial_cmp = { bytes_partial_cmp };

    ghost laws = { texts_po };

    fn partial_cmp(&self, other: &Self) -> Option<Ordering> {
        Some(self.cmp(other))
    }
}

impl Ord for Symbol {
    ghost cmp = { bytes_cmp };

    ghost total = { nat_list_cmp_total };

    ghost matches_partial_cmp = { λ x y. refl };

    ghost matches_eq = { texts_ties };

    fn cmp(&self, other: &Self) -> Ordering {
        self.as_str().cmp(other.as_str())
    }
}

impl Hash for Symbol {
    ghost hash_input = { hashed_bytes };

    ghost respects_eq = { hashed_alike };

    fn hash<H: Hasher>(&self, state: &mut H) {
        state.write_usize(self.len());
        state.write(self.as_slice())
    }
}

impl PartialEq for Text {
    ghost eq = { bytes_eq };

    ghost laws = { bytes_partial_laws };

    fn eq(&self, other: &Self) -> bool {
        self.as_bytes() == other.as_bytes()
    }
}

impl Eq for Text {
    ghost laws = { nat_list_eq_equiv };
}

impl PartialOrd for Text {
    ghost partial_cmp = { bytes_partial_cmp };

    ghost laws = { texts_po };

    fn partial_cmp(&self, other: &Self) -> Option<Ordering> {
        Some(self.cmp(other))
    }
}

impl Ord for Text {
    ghost cmp = { bytes_cmp };

    ghost total = { nat_list_cmp_total };

    ghost matches_partial_cmp = { λ x y. refl };

    ghost matches_eq = { texts_ties };

    fn cmp(&self, other: &Self) -> Ordering {
        self.as_str().cmp(other.as_str())
    }
}

impl Hash for Text {
    ghost hash_input = { hashed_bytes };

    ghost respects_eq = { hashed_alike };

    fn hash<H: Hasher>(&self, state: &mut H) {
        state.write_usize(self.len());
        state.write(self.as_bytes())
    }
}

/// Two lists are equal where they have the same symbols in the same order.
impl PartialEq for SymbolList {
    ghost eq = { lists_eq };

    ghost laws = { lists_partial_laws };

    fn eq(&self, other: &Self) -> bool {
        self.as_slice() == other.as_slice()
    }
}

impl Eq for SymbolList {
    ghost laws = { lists_laws };
}
