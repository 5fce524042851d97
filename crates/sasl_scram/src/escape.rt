//! User names as they are written: `=2C` for a comma, `=3D` for `=` (RFC 5802, section 5.1, `n`).

ghost use Rattle.std.specs.Prelude.{◌≡◌, List, ℕ, ◌∷◌, ◌++◌, MatchOption, IfSome, IfNone, IfOk, OnOk};
ghost use Rattle.sasl_scram.specs.Texts.{escape_of, escaped_of};

use amqp_text::Binary;
use std::alloc::{AllocError, Global};

// Adds one byte of a user's name to a text as it is written.
fn append_byte(text: &mut Binary, byte: u8) -> Result<(), AllocError>
    ensures { OnOk result (text.new ≡ text.old ++ escape_of byte) }
{
    match byte {
        b',' => text.append(b"=2C"),
        b'=' => text.append(b"=3D"),
        _ => text.push(byte),
    }
}

/// Adds a user's name to a text as it is written; want of memory says nothing of the text.
pub fn append_escaped(text: &mut Binary, user: &[u8]) -> Result<(), AllocError>
    ensures { OnOk result (text.new ≡ text.old ++ escaped_of user.now) }
{
    'bytes: for byte in user {
        append_byte(text, *byte)?;
    }
    Ok(())
}

// Reads the byte that stands for `=2C` or `=3D`, behind the `=`.
fn read_code(code: &[u8]) -> Option<(u8, &[u8])>
    ensures found { IfSome result (λ r. 61 ∷ code.now ≡ escape_of r.0 ++ r.1.now) }
    ensures comma { IfNone result ((rest : List ℕ) → ¬ (code.now ≡ 50 ∷ 67 ∷ rest)) }
    ensures equals { IfNone result ((rest : List ℕ) → ¬ (code.now ≡ 51 ∷ 68 ∷ rest)) }
{
    match code {
        [b'2', b'C', rest @ ..] => Some((b',', rest)),
        [b'3', b'D', rest @ ..] => Some((b'=', rest)),
        _ => None,
    }
}

// Reads the first byte of a user whose name is written so, and gives the name after it.
fn read_byte(name: &[u8]) -> Option<(u8, &[u8])>
    ensures found { IfSome result (λ r. name.now ≡ escape_of r.0 ++ r.1.now) }
    ensures missing { IfNone result ((byte : ℕ) (rest : List ℕ) → ¬ (name.now ≡ escape_of byte ++ rest)) }
{
    match name {
        [b'=', code @ ..] => read_code(code),
        [b',', ..] => None,
        [byte, rest @ ..] => Some((*byte, rest)),
        [] => None,
    }
}

/// The user whose name is written so, if there is one.
pub fn unescape(alloc: Global, name: &[u8]) -> Result<Option<Vec<u8>>, AllocError>
    ensures { IfOk result (λ found. MatchOption found
        ((user : List ℕ) → ¬ (name.now ≡ escaped_of user)) (λ user. name.now ≡ escaped_of user.items)) }
{
    let mut user = Vec::new(alloc);
    let mut rest = name;
    'bytes: while !rest.is_empty() {
        let Some((byte, tail)) = read_byte(rest) else {
            return Ok(None);
        };
        user.push(byte)?;
        rest = tail;
    }
    Ok(Some(user))
}
