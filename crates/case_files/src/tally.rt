//! How many cases of a file are the same.
ghost use Rattle.std.specs.Prelude.{◌≡◌, ◌+◌, ◌<◌, ◌^◌, true, false};

use std::fmt;

/// How many cases of a file are the same, of how many.
#[derive(Clone, Copy, Debug, Default, PartialEq, Eq)]
pub struct Tally {
    /// The cases that are the same.
    pub same: u64,
    /// The cases.
    pub all: u64,
}

impl Tally {
    /// No cases.
    pub fn new() -> Self
        ensures same { result.same ≡ 0 }
        ensures all { result.all ≡ 0 }
    {
        Tally { same: 0, all: 0 }
    }

    /// Counts a case; the last number that has room stays.
    pub fn count(&mut self, is_same: bool)
        ensures all { self.old.all + 1 < 2 ^ 64 → self.new.all ≡ self.old.all + 1 }
        ensures same { is_same ≡ true → self.old.same + 1 < 2 ^ 64 → self.new.same ≡ self.old.same + 1 }
        ensures other { is_same ≡ false → self.new.same ≡ self.old.same }
    {
        self.all = self.all.saturating_add(1);
        if is_same {
            self.same = self.same.saturating_add(1);
        }
    }
}

impl fmt::Display for Tally {
    fn fmt<W: fmt::Write>(&self, f: &mut fmt::Formatter<W>) -> fmt::Result {
        let same = self.same;
        let all = self.all;
        write!(f, "{same} of {all} are the same")
    }
}
