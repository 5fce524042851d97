//! Symbolic values from a constrained domain, in ASCII (OASIS AMQP 1.0, part 1, section 1.6.21).
ghost use Rattle.std.specs.Prelude.{◌≡◌, ◌<◌, ◌↔◌, List, ℕ, [], ◌∷◌, ◌++◌, length, All, IsTrue, IfOk, OnOk, OnErr, IsErrOf};
ghost use Rattle.std.specs.Slice.Iter.{iter_rest};
ghost use Rattle.amqp_text.specs.declared.symbol.SymbolError.TheVariants.{Memory, NotAscii};

use smallvec::SmallVec;
use std::alloc::{AllocError, Global};
use std::convert::{AsSlice, AsStr};
use std::fmt::{self, Debug, Display, Formatter};
use std::marker::Model;
use std::{slice, str};
use thiserror::Error;

/// Why bytes give no symbol.
#[derive(Clone, Copy, Debug, PartialEq, Eq, Error)]
pub enum SymbolError {
    /// There was not enough memory.
    #[error("Memory")]
    Memory(AllocError),
    /// A byte is above 0x7f.
    #[error("NotAscii")]
    NotAscii,
}

impl From<AllocError> for SymbolError {
    ghost from_gives = { λ a e. e ≡ Memory a };

    fn from(error: AllocError) -> Self {
        SymbolError::Memory(error)
    }
}

/// How many bytes a symbol holds in its own place, without memory of its own.
const SHORT: usize = 16;

/// A symbol, seen as the list of its bytes, each below 0x80.
pub struct Symbol {
    bytes: SmallVec<u8, SHORT>,
}

// A symbol is let go by a call, so that no caller sees where its bytes lie.
impl Drop for Symbol {
    fn drop(self) {
        let Symbol { bytes } = self;
        drop(bytes);
    }
}

impl Model for Symbol {
    ghost use Rattle.std.specs.Prelude.{List, ℕ, All, ◌<◌};

    ghost Value = { List ℕ };

    ghost view = { λ s. s.bytes.items };

    ghost invariant = { λ s. All (λ b. b < 128) s.bytes.items };
}

fn is_ascii(bytes: &[u8]) -> bool
    ensures { IsTrue result ↔ All (λ b. b < 128) bytes.now }
{
    bytes.iter().all(|byte| *byte < 128)
}

impl Symbol {
    /// The symbol that `bytes` spell: `NotAscii` exactly where one of them is above 0x7f.
    pub fn from_slice(alloc: Global, bytes: &[u8]) -> Result<Self, SymbolError>
        ensures ok { IfOk result (λ s. s ≡ bytes.now) }
        ensures ascii { IfOk result (λ _. All (λ b. b < 128) bytes.now) }
        ensures refused { IsErrOf result SymbolError.NotAscii → All (λ b. b < 128) bytes.now → ⊥ }
    {
        if !is_ascii(bytes) {
            return Err(SymbolError::NotAscii);
        }
        let bytes = SmallVec::from_slice(alloc, bytes)?;
        Ok(Symbol { bytes })
    }

    /// The symbol that `text` spells: `NotAscii` exactly where a character is no ASCII.
    pub fn from_str(alloc: Global, text: &str) -> Result<Self, SymbolError>
        ensures ok { IfOk result (λ s. s ≡ text.now) }
        ensures ascii { IfOk result (λ _. All (λ b. b < 128) text.now) }
        ensures refused { IsErrOf result SymbolError.NotAscii → All (λ b. b < 128) text.now → ⊥ }
    {
        Symbol::from_slice(alloc, text.as_bytes())
    }

    /// The symbol's bytes, lent.
    pub fn as_slice(&self) -> &[u8]
        ensures value { result.now ≡ self.now }
        ensures ascii { All (λ b. b < 128) self.now }
    {
        self.bytes.as_slice()
    }

    /// The symbol as a text, lent.
    pub fn as_str(&self) -> &str
        ensures value { result.now ≡ self.now }
        ensures ascii { All (λ b. b < 128) self.now }
    {
        unsafe { str::from_utf8_unchecked(self.bytes.as_slice()) }
    }

    /// The number of bytes.
    pub fn len(&self) -> usize
        ensures { result ≡ length self.now }
    {
        self.bytes.len()
    }

    /// Whether there are none.
    pub fn is_empty(&self) -> bool
        ensures { IsTrue result ↔ (self.now ≡ []) }
    {
        self.bytes.as_slice().is_empty()
    }

    /// A copy; the one error is want of memory.
    pub fn try_clone(&self, alloc: Global) -> Result<Self, AllocError>
        ensures { IfOk result (λ s. s ≡ self.now) }
    {
        let bytes = SmallVec::from_slice(alloc, self.bytes.as_slice())?;
        Ok(Symbol { bytes })
    }
}

impl AsSlice<u8> for Symbol {
    ghost items = { λ s. s };

    fn as_slice(&self) -> &[u8] {
        self.bytes.as_slice()
    }
}

impl AsStr for Symbol {
    ghost text = { λ s. s };

    fn as_str(&self) -> &str {
        Symbol::as_str(self)
    }
}

impl Debug for Symbol {
    fn fmt<W: fmt::Write>(&self, f: &mut Formatter<W>) -> fmt::Result {
        Debug::fmt(&self.as_str(), f)
    }
}

impl Display for Symbol {
    ghost use Rattle.std.specs.Prelude.{Some};

    ghost output = { λ s. Some s };

    fn fmt<W: fmt::Write>(&self, f: &mut Formatter<W>) -> fmt::Result {
        Display::fmt(&self.as_str(), f)
    }
}

/// Symbols, seen as the list of them.
pub struct SymbolList {
    symbols: Vec<Symbol>,
}

// A list is let go by a call, so that no caller sees where its symbols lie.
impl Drop for SymbolList {
    fn drop(self) {
        let SymbolList { symbols } = self;
        drop(symbols);
    }
}

impl Model for SymbolList {
    ghost Value = { List (List ℕ) };

    ghost view = { λ s. s.symbols.items };
}

impl SymbolList {
    /// No symbols; takes no memory.
    pub fn new(alloc: Global) -> Self
        ensures { result ≡ [] }
    {
        SymbolList {
            symbols: Vec::new(alloc),
        }
    }

    /// Those symbols.
    pub fn from_vec(symbols: Vec<Symbol>) -> Self
        ensures { result ≡ symbols.items }
    {
        SymbolList { symbols }
    }

    /// The symbols themselves.
    pub fn into_vec(self) -> Vec<Symbol>
        ensures { result.items ≡ self }
    {
        let SymbolList { symbols } = self;
        symbols
    }

    /// The symbols, lent.
    pub fn as_slice(&self) -> &[Symbol]
        ensures { result.now ≡ self.now }
    {
        self.symbols.as_slice()
    }

    /// The symbols in order.
    pub fn iter(&self) -> slice::Iter<'_, Symbol>
        ensures { iter_rest result ≡ self.now }
    {
        self.symbols.as_slice().iter()
    }

    /// The number of symbols.
    pub fn len(&self) -> usize
        ensures { result ≡ length self.now }
    {
        self.symbols.len()
    }

    /// Whether there are none.
    pub fn is_empty(&self) -> bool
        ensures { IsTrue result ↔ (self.now ≡ []) }
    {
        self.symbols.as_slice().is_empty()
    }

    /// Adds a symbol at the end; want of memory leaves the list as it was.
    pub fn push(&mut self, symbol: Symbol) -> Result<(), AllocError>
        ensures ok { OnOk result (self.new ≡ self.old ++ symbol ∷ []) }
        ensures err { OnErr result (self.new ≡ self.old) }
    {
        self.symbols.push(symbol)?;
        Ok(())
    }

    /// A copy of the list and of its symbols; the one error is want of memory.
    pub fn try_clone(&self, alloc: Global) -> Result<Self, AllocError>
        ensures { IfOk result (λ l. l ≡ self.now) }
    {
        let mut symbols = Vec::with_capacity(alloc, self.symbols.len())?;
        for symbol in self.symbols.as_slice() {
            let copy = symbol.try_clone(alloc)?;
            symbols.push(copy)?;
        }
        Ok(SymbolList { symbols })
    }
}

impl AsSlice<Symbol> for SymbolList {
    ghost items = { λ l. l };

    fn as_slice(&self) -> &[Symbol] {
        self.symbols.as_slice()
    }
}

impl Debug for SymbolList {
    fn fmt<W: fmt::Write>(&self, f: &mut Formatter<W>) -> fmt::Result {
        Debug::fmt(&self.symbols, f)
    }
}

impl<'a> IntoIterator for &'a SymbolList {
    type Item = &'a Symbol;

    type IntoIter = slice::Iter<'a, Symbol>;

    ghost into_iter_gives = { λ list it. iter_rest it ≡ list.now };

    fn into_iter(self) -> Self::IntoIter {
        self.iter()
    }
}
