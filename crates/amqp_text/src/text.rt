//! Strings of Unicode characters in UTF-8 (OASIS AMQP 1.0, part 1, section 1.6.20).
ghost use Rattle.std.specs.Prelude.{◌≡◌, ◌↔◌, List, ℕ, [], length, IsUtf8, IsTrue, IfOk, IfErr, IfSome, IfNone, IsErrOf};
ghost use Rattle.amqp_text.specs.declared.text.TextError.{TextError};
ghost use Rattle.amqp_text.specs.declared.text.TextError.TheVariants.{Memory, NotUtf8};

use smallvec::SmallVec;
use std::alloc::{AllocError, Global};
use std::convert::{AsSlice, AsStr};
use std::fmt::{self, Debug, Display, Formatter};
use std::marker::Model;
use std::str;
use thiserror::Error;

/// Why bytes give no text.
#[derive(Clone, Copy, Debug, PartialEq, Eq, Error)]
pub enum TextError {
    /// There was not enough memory.
    #[error("Memory")]
    Memory(AllocError),
    /// The bytes are no UTF-8.
    #[error("NotUtf8")]
    NotUtf8,
}

impl From<AllocError> for TextError {
    ghost from_gives = { λ a e. e ≡ Memory a };

    fn from(error: AllocError) -> Self {
        TextError::Memory(error)
    }
}

/// How many bytes a text holds in its own place, without memory of its own.
const SHORT: usize = 16;

/// A text, seen as the list of its bytes, which are UTF-8.
pub struct Text {
    bytes: SmallVec<u8, SHORT>,
}

// A text is let go by a call, so that no caller sees where its bytes lie.
impl Drop for Text {
    fn drop(self) {
        let Text { bytes } = self;
        drop(bytes);
    }
}

impl Model for Text {
    ghost use Rattle.std.specs.Prelude.{List, ℕ, IsUtf8};

    ghost Value = { List ℕ };

    ghost view = { λ t. t.bytes.items };

    ghost invariant = { λ t. IsUtf8 t.bytes.items };
}

// The text that bytes spell, if they are UTF-8. ASCII is told by a shorter test.
fn as_text(bytes: &[u8]) -> Option<&str>
    ensures found { IfSome result (λ text. text.now ≡ bytes.now) }
    ensures utf8 { IfSome result (λ _. IsUtf8 bytes.now) }
    ensures missing { IfNone result (IsUtf8 bytes.now → ⊥) }
{
    if bytes.is_ascii() {
        return Some(unsafe { str::from_utf8_unchecked(bytes) });
    }
    match str::from_utf8(bytes) {
        Ok(text) => Some(text),
        Err(_) => None,
    }
}

impl Text {
    /// The empty text; takes no memory.
    pub fn new(alloc: Global) -> Self
        ensures { result ≡ [] }
    {
        Text {
            bytes: SmallVec::new(alloc),
        }
    }

    /// A copy of `text`; the one error is want of memory.
    pub fn from_str(alloc: Global, text: &str) -> Result<Self, AllocError>
        ensures { IfOk result (λ t. t ≡ text.now) }
    {
        let bytes = SmallVec::from_slice(alloc, text.as_bytes())?;
        Ok(Text { bytes })
    }

    /// The text that `bytes` spell: `NotUtf8` exactly where they are no UTF-8.
    pub fn from_utf8(alloc: Global, bytes: &[u8]) -> Result<Self, TextError>
        ensures ok { IfOk result (λ t. t ≡ bytes.now) }
        ensures utf8 { IfOk result (λ _. IsUtf8 bytes.now) }
        ensures refused { IsErrOf result TextError.NotUtf8 → IsUtf8 bytes.now → ⊥ }
    {
        match as_text(bytes) {
            Some(text) => {
                let text = Text::from_str(alloc, text)?;
                Ok(text)
            }
            None => Err(TextError::NotUtf8),
        }
    }

    /// The text, lent.
    pub fn as_str(&self) -> &str
        ensures { result.now ≡ self.now }
    {
        unsafe { str::from_utf8_unchecked(self.bytes.as_slice()) }
    }

    /// The text's bytes, lent.
    pub fn as_bytes(&self) -> &[u8]
        ensures { result.now ≡ self.now }
    {
        self.bytes.as_slice()
    }

    /// The number of bytes.
    pub fn len(&self) -> usize
        ensures { result ≡ length self.now }
    {
        self.bytes.len()
    }

    /// Whether there are none.
    pub fn is_empty(&self) -> bool
        ensures { IsTrue result ↔ (self.now ≡ []) }
    {
        self.bytes.as_slice().is_empty()
    }

    /// A copy; the one error is want of memory.
    pub fn try_clone(&self, alloc: Global) -> Result<Self, AllocError>
        ensures { IfOk result (λ t. t ≡ self.now) }
    {
        Text::from_str(alloc, self.as_str())
    }
}

impl AsStr for Text {
    ghost text = { λ t. t };

    fn as_str(&self) -> &str {
        Text::as_str(self)
    }
}

impl AsSlice<u8> for Text {
    ghost items = { λ t. t };

    fn as_slice(&self) -> &[u8] {
        self.bytes.as_slice()
    }
}

impl Debug for Text {
    fn fmt<W: fmt::Write>(&self, f: &mut Formatter<W>) -> fmt::Result {
        Debug::fmt(&self.as_str(), f)
    }
}

impl Display for Text {
    ghost use Rattle.std.specs.Prelude.{Some};

    ghost output = { λ t. Some t };

    fn fmt<W: fmt::Write>(&self, f: &mut Formatter<W>) -> fmt::Result {
        Display::fmt(&self.as_str(), f)
    }
}
