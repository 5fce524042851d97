//! Names of calls.
ghost use Rattle.std.specs.Prelude.{◌≡◌, ◌+◌, min};

/// Gives one name after another, from 0.
#[derive(Clone, Copy, Debug)]
pub struct Names {
    next: u64,
}

impl Names {
    /// No name was given.
    pub fn new() -> Self
        ensures { result.next ≡ 0 }
    {
        Names { next: 0 }
    }

    /// The next name. The last one is given again and again.
    pub fn give(&mut self) -> u64
        ensures given { result ≡ self.old.next }
        ensures next { self.new.next ≡ min (self.old.next + 1) 18446744073709551615 }
    {
        let name = self.next;
        self.next = self.next.saturating_add(1);
        name
    }
}
