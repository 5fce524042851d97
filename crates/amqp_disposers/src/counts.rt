//! What a run counts, as it is written.
ghost use Rattle.std.specs.Prelude.{◌≡◌, ◌++◌, OnOk, IfOk};
ghost use Rattle.amqp_disposers.specs.Counts.{line_of, text_of};

use std::alloc::{AllocError, Global};

/// What a run counted.
#[derive(Clone, Copy, Debug, PartialEq, Eq)]
pub struct Counts {
    /// The calls that accept a delivery.
    pub calls: u64,
    /// The settled Dispositions that were ordered.
    pub settled: u64,
}

/// Adds a word, a number in decimal and a line feed.
fn push_line(alloc: Global, out: &mut Vec<u8>, word: &str, number: u64) -> Result<(), AllocError>
    ensures { OnOk result (out.new.items ≡ out.old.items ++ line_of word.now number) }
{
    let digits = format!(in alloc; "{number}")?;
    out.extend_from_slice(word.as_bytes())?;
    out.extend_from_slice(digits.as_bytes())?;
    out.push(b'\n')?;
    Ok(())
}

impl Counts {
    /// The lines `calls N` and `settled N`; the one error is want of memory.
    pub fn text(self, alloc: Global) -> Result<Vec<u8>, AllocError>
        ensures { IfOk result (λ t. t.items ≡ text_of self.calls self.settled) }
    {
        let mut out = Vec::new(alloc);
        push_line(alloc, &mut out, "calls ", self.calls)?;
        push_line(alloc, &mut out, "settled ", self.settled)?;
        Ok(out)
    }
}
