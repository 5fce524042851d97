//! Pseudorandom functions of a key and a message.
#![tactic(auto)]

ghost use Rattle.std.specs.Prelude.{◌≡◌, ℕ, ◌≤◌, Bool, true, false, List, [], ◌++◌, length, IfOk, OnErr};

use crate::error::InvalidLength;

/// A pseudorandom function of a key and of a message that comes piece by piece: the PRF of RFC 8018, section 5.2.
pub trait Prf: Sized + Drop {
    /// The length of an output in bytes, from 1 to 64.
    const OUTPUT: usize;

    ghost OUTPUT: { ℕ };

    // Whether a key is taken.
    ghost accepts: { List ℕ → Bool };

    // The output for a key and a message.
    ghost mac: { List ℕ → List ℕ → List ℕ };

    // The state has this key, and was given this message since.
    ghost holds: { Self → List ℕ → List ℕ → Type 0 };

    /// The function with the key `key`, given nothing so far, or `InvalidLength` for a key that it does not take.
    fn new_from_slice(key: &[u8]) -> Result<Self, InvalidLength>
        ensures ok { IfOk result (λ prf. (accepts key.now ≡ true) × holds prf key.now []) }
        ensures err { OnErr result (accepts key.now ≡ false) };

    /// The function with the same key, given nothing so far. No piece may have been given since the key.
    fn duplicate(&self) -> Self
        requires { (key : List ℕ) × holds self.now key [] }
        ensures { (key : List ℕ) → holds self.now key [] → holds result key [] };

    /// Adds `piece` to the message.
    fn update(&mut self, piece: &[u8])
        ensures { (key : List ℕ) (m : List ℕ) → holds self.old key m → holds self.new key (m ++ piece.now) };

    /// Writes the output for the message into `out`, which has `OUTPUT` bytes.
    fn finalize_into(self, out: &mut [u8])
        requires { length out.old ≡ OUTPUT }
        ensures { (key : List ℕ) (m : List ℕ) → holds self key m → out.new ≡ mac key m };

    // Laws: each output has OUTPUT bytes, and these are 1 to 64.
    ghost mac_length: { (key : List ℕ) (m : List ℕ) → length (mac key m) ≡ OUTPUT };

    ghost output_low: { 1 ≤ OUTPUT };

    ghost output_high: { OUTPUT ≤ 64 };
}
