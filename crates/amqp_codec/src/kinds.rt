//! What a value holds, asked by its kind, and what a map has at a text (OASIS AMQP 1.0, part 1, section 1.6).
ghost use Rattle.std.specs.Prelude.{◌≡◌, position, option_map};
ghost use Rattle.amqp_data.specs.Data.{scalar, string, symbol};
ghost use Rattle.amqp_data.specs.Maps.{lookup};
ghost use Rattle.amqp_data.specs.Same.{same};
ghost use Rattle.amqp_data.specs.View.{view};
ghost use Rattle.amqp_fields.specs.Fields.{bool_in, timestamp_in, binary_in, string_in, symbol_in};
ghost use Rattle.amqp_codec.specs.Kinds.{is_null, unsigned_in, signed_in, char_in, uuid_in, list_in, map_in, array_in, described_in};

use amqp_data::{Described, Entry, OrderedMap, Timestamp, Uuid, Value, ValueArray, ValueList};

/// What a value holds where it is of that kind; none exactly where it is of another. Nothing is copied.
pub trait AsKind {
    /// Whether it is null (section 1.6.1).
    fn is_null(&self) -> bool;
    /// The truth of a boolean (section 1.6.2).
    fn as_bool(&self) -> Option<bool>;
    /// The number of a ubyte, ushort, uint or ulong (sections 1.6.3 to 1.6.6).
    fn as_u64(&self) -> Option<u64>;
    /// The number of a byte, short, int or long (sections 1.6.7 to 1.6.10).
    fn as_i64(&self) -> Option<i64>;
    /// The character (section 1.6.16).
    fn as_char(&self) -> Option<char>;
    /// The moment (section 1.6.17).
    fn as_timestamp(&self) -> Option<Timestamp>;
    /// The identifier (section 1.6.18).
    fn as_uuid(&self) -> Option<Uuid>;
    /// The bytes of a binary (section 1.6.19).
    fn as_bytes(&self) -> Option<&[u8]>;
    /// The text of a string (section 1.6.20).
    fn as_str(&self) -> Option<&str>;
    /// The text of a symbol (section 1.6.21).
    fn as_symbol(&self) -> Option<&str>;
    /// The list (section 1.6.22).
    fn as_list(&self) -> Option<&ValueList>;
    /// The map (section 1.6.23).
    fn as_map(&self) -> Option<&OrderedMap>;
    /// The array (section 1.6.24).
    fn as_array(&self) -> Option<&ValueArray>;
    /// The descriptor and the value behind it (section 1.1.2).
    fn as_described(&self) -> Option<&Described>;
}

impl AsKind for Value {
    fn is_null(&self) -> bool
        ensures { result ≡ is_null (view self.now) }
    {
        matches!(self, Value::Null)
    }

    fn as_bool(&self) -> Option<bool>
        ensures { result ≡ bool_in (view self.now) }
    {
        match self {
            Value::Bool(truth) => Some(*truth),
            _ => None,
        }
    }

    fn as_u64(&self) -> Option<u64>
        ensures { result ≡ unsigned_in (view self.now) }
    {
        match self {
            Value::Ubyte(number) => Some(u64::from(*number)),
            Value::Ushort(number) => Some(u64::from(*number)),
            Value::Uint(number) => Some(u64::from(*number)),
            Value::Ulong(number) => Some(*number),
            _ => None,
        }
    }

    fn as_i64(&self) -> Option<i64>
        ensures { result ≡ signed_in (view self.now) }
    {
        match self {
            Value::Byte(number) => Some(i64::from(*number)),
            Value::Short(number) => Some(i64::from(*number)),
            Value::Int(number) => Some(i64::from(*number)),
            Value::Long(number) => Some(*number),
            _ => None,
        }
    }

    fn as_char(&self) -> Option<char>
        ensures { result ≡ char_in (view self.now) }
    {
        match self {
            Value::Char(character) => Some(*character),
            _ => None,
        }
    }

    fn as_timestamp(&self) -> Option<Timestamp>
        ensures { result ≡ timestamp_in (view self.now) }
    {
        match self {
            Value::Timestamp(moment) => Some(*moment),
            _ => None,
        }
    }

    fn as_uuid(&self) -> Option<Uuid>
        ensures { result ≡ uuid_in (view self.now) }
    {
        match self {
            Value::Uuid(uuid) => Some(*uuid),
            _ => None,
        }
    }

    fn as_bytes(&self) -> Option<&[u8]>
        ensures { option_map (λ s. s.now) result ≡ binary_in (view self.now) }
    {
        match self {
            Value::Binary(bytes) => Some(bytes.as_slice()),
            _ => None,
        }
    }

    fn as_str(&self) -> Option<&str>
        ensures { option_map (λ s. s.now) result ≡ string_in (view self.now) }
    {
        match self {
            Value::String(text) => Some(text.as_str()),
            _ => None,
        }
    }

    fn as_symbol(&self) -> Option<&str>
        ensures { option_map (λ s. s.now) result ≡ symbol_in (view self.now) }
    {
        match self {
            Value::Symbol(symbol) => Some(symbol.as_str()),
            _ => None,
        }
    }

    fn as_list(&self) -> Option<&ValueList>
        ensures { option_map (λ l. l.now) result ≡ list_in (view self.now) }
    {
        match self {
            Value::List(list) => Some(list),
            _ => None,
        }
    }

    fn as_map(&self) -> Option<&OrderedMap>
        ensures { option_map (λ m. m.now) result ≡ map_in (view self.now) }
    {
        match self {
            Value::Map(map) => Some(map),
            _ => None,
        }
    }

    fn as_array(&self) -> Option<&ValueArray>
        ensures { option_map (λ a. a.now) result ≡ array_in (view self.now) }
    {
        match self {
            Value::Array(array) => Some(array),
            _ => None,
        }
    }

    fn as_described(&self) -> Option<&Described>
        ensures { option_map (λ d. d.now) result ≡ described_in (view self.now) }
    {
        match self {
            Value::Described(described) => Some(described),
            _ => None,
        }
    }
}

/// The place of that text, a string, among the keys.
fn place_of_text(entries: &[Entry], key: &str) -> Option<usize>
    ensures { result ≡ position (λ e. same (view e.key) (scalar (string key.now))) entries.now }
{
    entries.iter().position(|entry| is_text(&entry.key, key))
}

/// The place of that symbol among the keys.
fn place_of_symbol(entries: &[Entry], key: &str) -> Option<usize>
    ensures { result ≡ position (λ e. same (view e.key) (scalar (symbol key.now))) entries.now }
{
    entries.iter().position(|entry| is_symbol(&entry.key, key))
}

/// Whether the value is that text, as a string.
#[tactic(auto, unfolding(amqp_data::specs::Same::same, amqp_data::specs::Same::same_scalar))]
fn is_text(value: &Value, text: &str) -> bool
    ensures { result ≡ same (view value.now) (scalar (string text.now)) }
{
    match value {
        Value::String(held) => held.as_str() == text,
        _ => false,
    }
}

/// Whether the value is that text, as a symbol.
#[tactic(auto, unfolding(amqp_data::specs::Same::same, amqp_data::specs::Same::same_scalar))]
fn is_symbol(value: &Value, text: &str) -> bool
    ensures { result ≡ same (view value.now) (scalar (symbol text.now)) }
{
    match value {
        Value::Symbol(held) => held.as_str() == text,
        _ => false,
    }
}

/// The value at the key that is that text, as a string: none exactly where there is no such key. No memory is taken; the work is
/// linear in the number of entries.
pub fn get_text<'a>(map: &'a OrderedMap, key: &str) -> Option<&'a Value>
    ensures { option_map (λ v. view v.now) result ≡ lookup (scalar (string key.now)) map.now }
{
    let entries = map.entries();
    let place = place_of_text(entries, key)?;
    Some(&entries[place].value)
}

/// The value at the key that is that text, as a symbol: none exactly where there is no such key. No memory is taken; the work is
/// linear in the number of entries.
pub fn get_symbol<'a>(map: &'a OrderedMap, key: &str) -> Option<&'a Value>
    ensures { option_map (λ v. view v.now) result ≡ lookup (scalar (symbol key.now)) map.now }
{
    let entries = map.entries();
    let place = place_of_symbol(entries, key)?;
    Some(&entries[place].value)
}
