//! The mechanisms whose client says all in its init: their names, and the message of PLAIN (RFC 4616, section 2).
ghost use Rattle.std.specs.Prelude.{◌≡◌, ℕ, List, ◌∷◌, ◌++◌, IfOk, IfSome, IfNone};
ghost use Rattle.sasl_exchange.specs.InitTexts.{HasNoZero, IsPlain, plain_of};

use amqp_text::Binary;
use std::alloc::{AllocError, Global};

/// The name of the mechanism (RFC 4505, section 2).
pub const ANONYMOUS: &str = "ANONYMOUS";

/// The name of the mechanism (RFC 4616, section 2).
pub const PLAIN: &str = "PLAIN";

/// What a message says: a user and a password.
#[derive(Clone, Copy)]
pub struct PlainMessage<'a> {
    pub user: &'a [u8],
    pub password: &'a [u8],
}

// What stands before the first zero byte of a text, and what stands after it.
fn split_at_zero(text: &[u8]) -> Option<(&[u8], &[u8])>
    ensures found { IfSome result (λ r. (text.now ≡ r.0.now ++ (0 ∷ r.1.now)) × HasNoZero r.0.now) }
    ensures missing { IfNone result (HasNoZero text.now) }
{
    match text.iter().position(|b| *b == 0) {
        Some(at) => Some((&text[..at], &text[at + 1..])),
        None => None,
    }
}

/// Reads a message: past the authorization identity, up to the first zero byte, the user up to the next one, and the
/// password behind that.
pub fn read_plain(text: &[u8]) -> Option<PlainMessage<'_>>
    ensures found { IfSome result (λ m. IsPlain text.now m.user.now m.password.now) }
    ensures missing { IfNone result ((user : List ℕ) (password : List ℕ) → ¬ IsPlain text.now user password) }
{
    let Some((_, rest)) = split_at_zero(text) else {
        return None;
    };
    match split_at_zero(rest) {
        Some((user, password)) => Some(PlainMessage { user, password }),
        None => None,
    }
}

/// The message of a client with this user and this password; the one error is want of memory.
pub fn plain_message(alloc: Global, user: &[u8], password: &[u8]) -> Result<Binary, AllocError>
    ensures { IfOk result (λ text. text ≡ plain_of user.now password.now) }
{
    let mut text = Binary::from_slice(alloc, b"\0")?;
    text.append(user)?;
    text.append(b"\0")?;
    text.append(password)?;
    Ok(text)
}
