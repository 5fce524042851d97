//! Fields that hold no other value, and lists of symbols.
ghost use Rattle.std.specs.Prelude.{◌≡◌, ◌≤◌, if◌then◌else◌};
ghost use Rattle.amqp_data.specs.Data.{depth};
ghost use Rattle.amqp_data.specs.View.{view};
ghost use Rattle.amqp_fields.specs.Fields.{of_binary, of_string, of_symbol, symbol_items, of_symbols};
ghost use Rattle.amqp_value.specs.Canonical.{are_short, narrow_if};
ghost use Rattle.amqp_value.specs.Writing.{octet_count};
ghost use Rattle.amqp_sizes.specs.Taken.{Takes};
ghost use Rattle.amqp_sizes.specs.Texts.{TakesText, TakeElements};

use crate::composite::{SIZE_LIMIT, compound_size, sum_within};
use crate::slot::Measured;
use amqp_composites::{ReceiverSettleMode, Role, SenderSettleMode};
use amqp_data::{Binary, Symbol, SymbolList, Text, Value, nests_within};
use amqp_value::serialized_size;

/// How many bytes are written of a value.
pub(crate) fn value_size(value: &Value, levels: u8) -> Option<u64>
    requires { levels ≤ 32 }
    ensures { Takes result levels (view value.now) }
{
    if !nests_within(value, levels) {
        return None;
    }
    match serialized_size(value) {
        Ok(size) => Some(size),
        Err(_) => None,
    }
}

impl Measured for bool {
    fn size(&self, levels: u8) -> Option<u64> {
        value_size(&Value::Bool(*self), levels)
    }
}

impl Measured for u16 {
    fn size(&self, levels: u8) -> Option<u64> {
        value_size(&Value::Ushort(*self), levels)
    }
}

impl Measured for u32 {
    fn size(&self, levels: u8) -> Option<u64> {
        value_size(&Value::Uint(*self), levels)
    }
}

impl Measured for u64 {
    fn size(&self, levels: u8) -> Option<u64> {
        value_size(&Value::Ulong(*self), levels)
    }
}

impl Measured for Role {
    fn size(&self, levels: u8) -> Option<u64> {
        match self {
            Role::Sender => value_size(&Value::Bool(false), levels),
            Role::Receiver => value_size(&Value::Bool(true), levels),
        }
    }
}

impl Measured for SenderSettleMode {
    fn size(&self, levels: u8) -> Option<u64> {
        value_size(&Value::Ubyte(self.number()), levels)
    }
}

impl Measured for ReceiverSettleMode {
    fn size(&self, levels: u8) -> Option<u64> {
        value_size(&Value::Ubyte(self.number()), levels)
    }
}

/// How many bytes a constructor, a length and those bytes take.
fn text_size(bytes: &[u8], levels: u8) -> Option<u64>
    ensures { TakesText result levels bytes.now }
{
    let length = bytes.len() as u64;
    if levels == 0 || length >= SIZE_LIMIT {
        None
    } else if length < 256 {
        Some(length + 2)
    } else {
        Some(length + 5)
    }
}

fn binary_size(binary: &Binary, levels: u8) -> Option<u64>
    ensures { Takes result levels (of_binary binary.now) }
{
    text_size(binary.as_slice(), levels)
}

impl Measured for Binary {
    fn size(&self, levels: u8) -> Option<u64> {
        binary_size(self, levels)
    }
}

fn string_size(string: &Text, levels: u8) -> Option<u64>
    ensures { Takes result levels (of_string string.now) }
{
    text_size(string.as_bytes(), levels)
}

impl Measured for Text {
    fn size(&self, levels: u8) -> Option<u64> {
        string_size(self, levels)
    }
}

fn symbol_size(symbol: &Symbol, levels: u8) -> Option<u64>
    ensures { Takes result levels (of_symbol symbol.now) }
{
    text_size(symbol.as_slice(), levels)
}

impl Measured for Symbol {
    fn size(&self, levels: u8) -> Option<u64> {
        symbol_size(self, levels)
    }
}

/// Whether each symbol has less than 256 bytes.
fn are_short(symbols: &[Symbol]) -> bool
    ensures { result ≡ are_short (symbol_items symbols.now) }
{
    for symbol in symbols {
        if symbol.len() >= 256 {
            return false;
        }
    }
    true
}

/// In how many octets the length of each symbol stands.
fn length_octets(is_short: bool) -> u64
    ensures { result ≡ octet_count (narrow_if is_short) }
{
    if is_short { 1 } else { 4 }
}

/// How many bytes the symbols take without a constructor, with their lengths in one octet or in four.
fn elements_size(is_short: bool, symbols: &[Symbol]) -> Option<u64>
    ensures { TakeElements result (narrow_if is_short) (symbol_items symbols.now) }
{
    let octets = length_octets(is_short);
    let mut total: u64 = 0;
    for symbol in symbols {
        let length = symbol.len() as u64;
        if length >= SIZE_LIMIT {
            return None;
        }
        total = sum_within(total, length + octets)?;
    }
    if total < SIZE_LIMIT - 5 {
        Some(total)
    } else {
        None
    }
}

/// How deep an array of the symbols is nested: one level where it is empty.
fn array_depth(symbols: &[Symbol]) -> u8
    ensures { result ≡ depth (of_symbols symbols.now) }
{
    if symbols.is_empty() { 1 } else { 2 }
}

/// How many bytes an array of the symbols takes.
fn symbols_size(symbols: &[Symbol], levels: u8) -> Option<u64>
    ensures { Takes result levels (of_symbols symbols.now) }
{
    if levels < array_depth(symbols) {
        return None;
    }
    let elements = elements_size(are_short(symbols), symbols)?;
    Some(compound_size(symbols.len() as u64, elements + 1))
}

fn list_size(list: &SymbolList, levels: u8) -> Option<u64>
    ensures { Takes result levels (of_symbols list.now) }
{
    symbols_size(list.as_slice(), levels)
}

impl Measured for SymbolList {
    fn size(&self, levels: u8) -> Option<u64> {
        list_size(self, levels)
    }
}
