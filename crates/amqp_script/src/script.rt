//! The script.
//!
//! A script is zero or more lines, each ended by a line feed; bytes that no line feed follows count
//! as one more line, which is outside the grammar. A line is `END MOMENT WORD` and arguments,
//! separated by single spaces. END is `c` (the client) or `l` (the listener), and MOMENT a number
//! below 2^64 of milliseconds. Numbers are decimal, without a sign and without leading zeros.
//!
//! | word and arguments | the step |
//! |---|---|
//! | `take N` (N below 2^64), `take all` | moves so many, or all, of the bytes that the other end wrote |
//! | `open id=T host=T saslhost=T max=N channels=N idle=N sasl=KIND user=T pass=T nonce=T` | the client opens the connection |
//! | `accept id=T host=T max=N channels=N idle=N sasl=KIND user=T pass=T salt=BASE64 rounds=N nonce=T` | the listener accepts it |
//! | `close error=T` | the end closes the connection |
//!
//! Keys come in any order, each at most once; a key ends at the first `=`. `id` is there at each
//! `open` and `accept`. KIND is `none`, as where it is left out, `anonymous`, `plain`, or the hash
//! function of SCRAM, `sha1`, `sha256` or `sha512`. `user` and `pass` are there exactly where it is
//! `plain` or a hash function, and `nonce` and for `accept` `salt` and `rounds` exactly where it is a
//! hash function. `max` (bytes, else 262,144), `idle` (milliseconds, else none) and `rounds` are
//! numbers below 2^32, and `channels` (else 255) is one below 2^16.
//!
//! A text T is printable ASCII (0x21 to 0x7e) without `%`; any byte is also written as `%` and two
//! hexadecimal digits in either case, and the bytes are UTF-8. Those of `error` are ASCII. `salt` is
//! canonical base64 with padding (RFC 4648, section 4).
ghost use Rattle.std.specs.Prelude.{◌≡◌, ℕ, IfOk, IsErrOf};
ghost use Rattle.amqp_script.specs.Script.{Spells, IsFirstBad};
ghost use Rattle.amqp_script.specs.declared.script.ScriptError.TheVariants.{Memory};

pub mod escape;
pub mod fields;
pub mod keys;
pub mod line;
pub mod line_error;
pub mod number;
pub mod sasl;
pub mod settings;
pub mod words;

use crate::script::line::read_line;
use crate::script::line_error::LineError;
use crate::script::words::split_once;
use amqp_words::StepList;
use std::alloc::{AllocError, Global};

/// Why a script says no steps.
#[derive(Clone, Copy, Debug, PartialEq, Eq)]
pub enum ScriptError {
    /// There was not enough memory.
    Memory(AllocError),
    /// This line, counted from 1, is the first outside the grammar.
    Bad {
        /// The number of the line.
        line: u64,
    },
}

impl From<AllocError> for ScriptError {
    ghost from_gives = { λ a e. e ≡ Memory a };

    fn from(error: AllocError) -> Self {
        ScriptError::Memory(error)
    }
}

/// The steps of a script, or its first line outside the grammar.
pub fn parse(alloc: Global, text: &[u8]) -> Result<StepList, ScriptError>
    ensures ok { IfOk result (λ steps. Spells text.now steps) }
    ensures bad { (n : ℕ) → IsErrOf result (ScriptError.Bad n) → IsFirstBad text.now n }
{
    let mut steps = StepList::new(alloc);
    let mut rest = text;
    'lines: while !rest.is_empty() {
        let number = steps.len() as u64 + 1;
        let Some((line, after)) = split_once(rest, b'\n') else {
            return Err(ScriptError::Bad { line: number });
        };
        match read_line(alloc, line) {
            Ok(step) => steps.push(step)?,
            Err(LineError::Outside) => return Err(ScriptError::Bad { line: number }),
            Err(LineError::Memory(error)) => return Err(ScriptError::Memory(error)),
        }
        rest = after;
    }
    Ok(steps)
}
