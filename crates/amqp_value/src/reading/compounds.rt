//! Values that hold other values (OASIS AMQP 1.0, part 1, sections 1.2 and 1.6.22 to 1.6.24).
ghost use Rattle.std.specs.Prelude.{◌≡◌, ◌∷◌, Option, ℕ, List, IfSome};
ghost use Rattle.amqp_data.specs.View.{view, items_view, pairs_view};
ghost use Rattle.amqp_data.specs.Data.{dict};
ghost use Rattle.amqp_value.specs.Reading.{Gives, items_at, pairs_at, values_in, list_at, pairs_in, map_at, distinct, element_at, constructor_at, elements_in, array_at, described_at, code_at, body_at, value_at};

use crate::code::{Code, ScalarCode, SizeWidth, code_of, scalar_code_of};
use crate::error::ValueError;
use crate::reading::blocks::{take_block, take_size, take_u8};
use crate::reading::scalars::{read_scalar, read_string};
use amqp_data::{Described, ElementKind, Entry, OrderedMap, Value, ValueArray, ValueList};
use std::alloc::Global;

/// The code of null (section 1.6.1).
const NULL: u8 = 0x40;

/// The code of a text whose length takes one octet (section 1.6.20).
const SHORT_STRING: u8 = 0xa1;

/// How many places are taken at once for what a count announces: the count alone is not trusted, since few bytes may follow it.
fn first_places(count: u32) -> usize {
    if count < 64 { count as usize } else { 64 }
}

// ---- arrays: their elements hold no other value

#[tactic(auto, unfolding(crate::specs::Reading::constructor_at))]
fn read_constructor(bytes: &[u8]) -> Result<(ScalarCode, ElementKind, &[u8]), ValueError>
    ensures { Gives (λ x. ((x.0, x.1), x.2.now)) result (constructor_at bytes.now) }
{
    let (byte, rest) = take_u8(bytes)?;
    let Some(code) = scalar_code_of(byte) else {
        return Err(ValueError::Decode);
    };
    match code.element_kind() {
        Some(kind) => Ok((code, kind, rest)),
        None => Err(ValueError::Decode),
    }
}

#[tactic(auto, unfolding(crate::specs::Reading::element_at))]
fn read_element(
    alloc: Global,
    code: ScalarCode,
    bytes: &[u8],
    depth: u8,
) -> Result<(Value, &[u8]), ValueError>
    ensures { Gives (λ x. (view x.0, x.1.now)) result (element_at code depth bytes.now) }
{
    if depth == 0 {
        return Err(ValueError::Decode);
    }
    read_scalar(alloc, code, bytes)
}

fn read_elements(
    alloc: Global,
    code: ScalarCode,
    count: u32,
    bytes: &[u8],
    depth: u8,
) -> Result<(Vec<Value>, &[u8]), ValueError>
    ensures { Gives (λ x. (items_view x.0.items, x.1.now)) result (items_at (element_at code depth) count bytes.now) }
{
    let mut values = Vec::new(alloc);
    let mut rest = bytes;
    'items: for _ in 0..count {
        let (found, after) = read_element(alloc, code, rest, depth)?;
        values.push(found)?;
        rest = after;
    }
    Ok((values, rest))
}

#[tactic(auto, unfolding(crate::specs::Reading::elements_in))]
fn read_elements_in(
    alloc: Global,
    width: SizeWidth,
    content: &[u8],
    depth: u8,
) -> Result<Value, ValueError>
    ensures { Gives view result (elements_in depth width content.now) }
{
    let (count, rest) = take_size(width, content)?;
    let (code, kind, rest) = read_constructor(rest)?;
    let (values, after_elements) = read_elements(alloc, code, count, rest, depth)?;
    if !after_elements.is_empty() {
        return Err(ValueError::Decode);
    }
    match ValueArray::from_vec(kind, values) {
        Some(array) => Ok(Value::Array(array)),
        None => unreachable!(),
    }
}

#[tactic(auto, unfolding(crate::specs::Reading::array_at))]
fn read_array(
    alloc: Global,
    width: SizeWidth,
    bytes: &[u8],
    depth: u8,
) -> Result<(Value, &[u8]), ValueError>
    ensures { Gives (λ x. (view x.0, x.1.now)) result (array_at depth width bytes.now) }
{
    let (content, after) = take_block(width, bytes)?;
    let array = read_elements_in(alloc, width, content, depth)?;
    Ok((array, after))
}

// ---- lists, maps and described values: their parts are values

#[cycle(read)]
fn read_items(
    alloc: Global,
    count: u32,
    bytes: &[u8],
    depth: u8,
) -> Result<(Vec<Value>, &[u8]), ValueError>
    ensures { Gives (λ x. (items_view x.0.items, x.1.now)) result (items_at (value_at depth) count bytes.now) }
{
    let mut values = Vec::with_capacity(alloc, first_places(count))?;
    let mut rest = bytes;
    'items: for _ in 0..count {
        let (found, after) = read_nested(alloc, rest, depth)?;
        values.push(found)?;
        rest = after;
    }
    Ok((values, rest))
}

#[cycle(read)]
#[tactic(auto, unfolding(crate::specs::Reading::values_in))]
fn read_values_in(
    alloc: Global,
    width: SizeWidth,
    content: &[u8],
    depth: u8,
) -> Result<ValueList, ValueError>
    ensures { Gives (λ x. x) result (values_in (value_at depth) width content.now) }
{
    let (count, rest) = take_size(width, content)?;
    let (values, after_items) = read_items(alloc, count, rest, depth)?;
    if !after_items.is_empty() {
        return Err(ValueError::Decode);
    }
    Ok(ValueList::from_vec(values))
}

#[cycle(read)]
#[tactic(auto, unfolding(crate::specs::Reading::list_at))]
fn read_list(
    alloc: Global,
    width: SizeWidth,
    bytes: &[u8],
    depth: u8,
) -> Result<(Value, &[u8]), ValueError>
    ensures { Gives (λ x. (view x.0, x.1.now)) result (list_at (value_at depth) width bytes.now) }
{
    let (content, after) = take_block(width, bytes)?;
    let values = read_values_in(alloc, width, content, depth)?;
    Ok((Value::List(values), after))
}

#[cycle(read)]
fn read_pairs(
    alloc: Global,
    count: u32,
    bytes: &[u8],
    depth: u8,
) -> Result<(Vec<Entry>, &[u8]), ValueError>
    ensures { Gives (λ x. (pairs_view x.0.items, x.1.now)) result (pairs_at (value_at depth) count bytes.now) }
{
    let mut entries = Vec::with_capacity(alloc, first_places(count))?;
    let mut rest = bytes;
    'pairs: for _ in 0..count {
        let (key, after) = read_nested(alloc, rest, depth)?;
        let (found, next) = read_nested(alloc, after, depth)?;
        entries.push(Entry { key, value: found })?;
        rest = next;
    }
    Ok((entries, rest))
}

#[cycle(read)]
#[tactic(auto, unfolding(crate::specs::Reading::pairs_in))]
fn read_pairs_in(
    alloc: Global,
    width: SizeWidth,
    content: &[u8],
    depth: u8,
) -> Result<Vec<Entry>, ValueError>
    ensures { Gives (λ x. pairs_view x.items) result (pairs_in (value_at depth) width content.now) }
{
    let (count, rest) = take_size(width, content)?;
    if count % 2 != 0 {
        return Err(ValueError::Decode);
    }
    let (entries, after_pairs) = read_pairs(alloc, count / 2, rest, depth)?;
    if !after_pairs.is_empty() {
        return Err(ValueError::Decode);
    }
    Ok(entries)
}

fn map_of(alloc: Global, entries: Vec<Entry>) -> Result<OrderedMap, ValueError>
    ensures { Gives (λ x. x) result (distinct (pairs_view entries.items)) }
{
    let map = OrderedMap::from_entries(alloc, entries)?;
    Ok(map)
}

#[cycle(read)]
#[tactic(auto, unfolding(crate::specs::Reading::map_at))]
fn read_map(
    alloc: Global,
    width: SizeWidth,
    bytes: &[u8],
    depth: u8,
) -> Result<(Value, &[u8]), ValueError>
    ensures { Gives (λ x. (view x.0, x.1.now)) result (map_at (value_at depth) width bytes.now) }
{
    let (content, after) = take_block(width, bytes)?;
    let entries = read_pairs_in(alloc, width, content, depth)?;
    let map = map_of(alloc, entries)?;
    Ok((Value::Map(map), after))
}

#[cycle(read)]
#[tactic(auto, unfolding(crate::specs::Reading::described_at))]
fn read_described(alloc: Global, bytes: &[u8], depth: u8) -> Result<(Value, &[u8]), ValueError>
    ensures { Gives (λ x. (view x.0, x.1.now)) result (described_at (value_at depth) bytes.now) }
{
    let (descriptor, after) = read_nested(alloc, bytes, depth)?;
    let (found, rest) = read_nested(alloc, after, depth)?;
    let described = Described::new(alloc, descriptor, found)?;
    Ok((Value::Described(described), rest))
}

#[tactic(auto, unfolding(crate::specs::Reading::code_at))]
fn read_code(bytes: &[u8]) -> Result<(Code, &[u8]), ValueError>
    ensures { Gives (λ x. (x.0, x.1.now)) result (code_at bytes.now) }
{
    let (byte, rest) = take_u8(bytes)?;
    let Some(code) = code_of(byte) else {
        return Err(ValueError::Decode);
    };
    Ok((code, rest))
}

#[cycle(read)]
#[tactic(auto, unfolding(crate::specs::Reading::body_at))]
fn read_body(
    alloc: Global,
    code: Code,
    bytes: &[u8],
    depth: u8,
) -> Result<(Value, &[u8]), ValueError>
    ensures { Gives (λ x. (view x.0, x.1.now)) result (body_at (value_at depth) depth code bytes.now) }
{
    match code {
        Code::Described => read_described(alloc, bytes, depth),
        Code::EmptyList => Ok((Value::List(ValueList::new(alloc)), bytes)),
        Code::List(width) => read_list(alloc, width, bytes, depth),
        Code::Map(width) => read_map(alloc, width, bytes, depth),
        Code::Array(width) => read_array(alloc, width, bytes, depth),
        Code::Scalar(code) => read_scalar(alloc, code, bytes),
    }
}

/// The value that begins the bytes and is nested no deeper than `depth`, and the bytes after it.
#[cycle(read)]
#[tactic(auto, unfolding(crate::specs::Reading::value_at))]
#[inline(never)]
fn read_any(alloc: Global, bytes: &[u8], depth: u8) -> Result<(Value, &[u8]), ValueError>
    ensures { Gives (λ x. (view x.0, x.1.now)) result (value_at depth bytes.now) }
{
    if depth == 0 {
        return Err(ValueError::Decode);
    }
    let (code, rest) = read_code(bytes)?;
    read_body(alloc, code, rest, depth - 1)
}

/// The bytes after a first octet with that code, where they begin with it.
fn after_code(code: u8, bytes: &[u8]) -> Option<&[u8]>
    ensures { IfSome result (λ rest. bytes.now ≡ code ∷ rest.now) }
{
    match bytes {
        [first, rest @ ..] if *first == code => Some(rest),
        _ => None,
    }
}

/// What `read_any` reads. A short text, as keys and their values often are, and null take the shortest way: they are made in
/// the caller's own place, and only what `read_any` reads is moved.
#[cycle(read)]
#[inline(always)]
pub fn read_nested(alloc: Global, bytes: &[u8], depth: u8) -> Result<(Value, &[u8]), ValueError>
    ensures { Gives (λ x. (view x.0, x.1.now)) result (value_at depth bytes.now) }
{
    if depth != 0 {
        if let Some(rest) = after_code(SHORT_STRING, bytes) {
            return read_string(alloc, SizeWidth::One, rest);
        }
        if let Some(rest) = after_code(NULL, bytes) {
            return Ok((Value::Null, rest));
        }
    }
    let (found, rest) = read_any(alloc, bytes, depth)?;
    Ok((found, rest))
}
