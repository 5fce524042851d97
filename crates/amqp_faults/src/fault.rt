//! Places and reasons.
use std::fmt;

/// Why bytes are refused.
#[derive(Clone, Copy, Debug, PartialEq, Eq)]
pub enum Reason {
    /// They end before the value does.
    CutShort,
    /// No value, or no element of an array, has this constructor (part 1, sections 1.2 and 1.6.24).
    UnknownCode,
    /// The constructor is that of a float, a double or a decimal (part 1, sections 1.6.11 to 1.6.15), which are not read.
    Float,
    /// A boolean is neither 0 nor 1 (part 1, section 1.6.2).
    NoBoolean,
    /// A char is no Unicode scalar value (part 1, section 1.6.16).
    NoCharacter,
    /// A string is not UTF-8 (part 1, section 1.6.20).
    NotUtf8,
    /// A symbol is not ASCII (part 1, section 1.6.21).
    NotAscii,
    /// A key of a map comes twice (part 1, section 1.6.23).
    KeyTwice,
    /// A value is nested too deep.
    TooDeep,
    /// The size or the count of a compound or an array does not agree with what it holds (part 1, sections 1.2.3 and 1.2.4).
    Sizes,
    /// The value is no body of a frame: no described list with the descriptor of one (part 2, section 2.7; part 5, section 5.3.3).
    NoBody,
    /// A field is missing, or of another type, or one too many.
    Field,
    /// The value is no section of a message that may stand here (part 3, section 3.2).
    NoSection,
    /// Bytes stand behind the end.
    Behind,
}

impl fmt::Display for Reason {
    fn fmt<W: fmt::Write>(&self, f: &mut fmt::Formatter<W>) -> fmt::Result {
        f.write_str(self.text())
    }
}

impl Reason {
    /// The reason in words.
    fn text(self) -> &'static str {
        match self {
            Reason::CutShort => "cut short",
            Reason::UnknownCode => "unknown code",
            Reason::Float => "a float or decimal",
            Reason::NoBoolean => "neither true nor false",
            Reason::NoCharacter => "no character",
            Reason::NotUtf8 => "not UTF-8",
            Reason::NotAscii => "not ASCII",
            Reason::KeyTwice => "a key twice",
            Reason::TooDeep => "nested too deep",
            Reason::Sizes => "sizes that do not agree",
            Reason::NoBody => "no such body",
            Reason::Field => "a field missing or of another type",
            Reason::NoSection => "no such section here",
            Reason::Behind => "bytes behind the end",
        }
    }
}

/// Where bytes are refused, and why.
#[derive(Clone, Copy, Debug, PartialEq, Eq)]
pub struct Fault {
    /// How many bytes stand before the innermost part that is refused: its constructor, an element of an array, a field, a
    /// section, or the end where something is wanting.
    pub offset: usize,
    /// Why it is refused.
    pub reason: Reason,
}
