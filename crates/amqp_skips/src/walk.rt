//! The walk over a spelling: the parts of compounds are passed one after another, and nothing is kept of them.
ghost use Rattle.std.specs.Prelude.{◌≤◌, length, IfSome};
ghost use Rattle.amqp_faults.specs.Faults.{passed, element_past, stepped};
ghost use Rattle.amqp_faults.specs.Sees.{Sees};
ghost use Rattle.amqp_skips.specs.Skipped.{elements_past, pairs_past, described_past, parts_past, block_past, form_past, skipped};

use amqp_faults::blocks::{split, take_block, take_size};
use amqp_faults::form::{Form, Layout, Width, element_layout, form_of};
use amqp_faults::scalars::pass;

/// The bytes behind what the layout takes of the front.
fn past_scalar(layout: Layout, bytes: &[u8]) -> Option<&[u8]>
    ensures past { Sees (λ x. x.now) result (passed layout bytes.now) }
    ensures within { IfSome result (λ x. length x.now ≤ length bytes.now) }
{
    match pass(layout, bytes) {
        Ok(rest) => Some(rest),
        Err(_) => None,
    }
}

/// The bytes behind an element of an array.
fn past_element(layout: Layout, bytes: &[u8], levels: u8) -> Option<&[u8]>
    ensures past { Sees (λ x. x.now) result (element_past levels layout bytes.now) }
    ensures within { IfSome result (λ x. length x.now ≤ length bytes.now) }
{
    if levels == 0 {
        None
    } else {
        past_scalar(layout, bytes)
    }
}

/// The bytes behind a constructor and so many elements.
fn past_elements(count: u32, bytes: &[u8], levels: u8) -> Option<&[u8]>
    ensures past { Sees (λ x. x.now) result (elements_past levels count bytes.now) }
    ensures within { IfSome result (λ x. length x.now ≤ length bytes.now) }
{
    let (first, elements) = split(bytes)?;
    let layout = element_layout(first)?;
    let mut rest = elements;
    'elements: for _ in 0..count {
        rest = past_element(layout, rest, levels)?;
    }
    Some(rest)
}

/// The bytes behind so many values.
#[cycle(skip)]
fn past_values(count: u32, bytes: &[u8], levels: u8) -> Option<&[u8]>
    ensures past { Sees (λ x. x.now) result (stepped (skipped levels) count bytes.now) }
    ensures within { IfSome result (λ x. length x.now ≤ length bytes.now) }
{
    let mut rest = bytes;
    'values: for _ in 0..count {
        rest = past(rest, levels)?;
    }
    Some(rest)
}

/// The bytes behind so many keys and values in turn.
#[cycle(skip)]
fn past_pairs(count: u32, bytes: &[u8], levels: u8) -> Option<&[u8]>
    ensures past { Sees (λ x. x.now) result (pairs_past (skipped levels) count bytes.now) }
    ensures within { IfSome result (λ x. length x.now ≤ length bytes.now) }
{
    if count % 2 == 0 {
        past_values(count, bytes, levels)
    } else {
        None
    }
}

/// The bytes behind so many parts of a compound.
#[cycle(skip)]
fn past_parts(form: Form, count: u32, parts: &[u8], levels: u8) -> Option<&[u8]>
    ensures past { Sees (λ x. x.now) result (parts_past (skipped levels) levels form count parts.now) }
    ensures within { IfSome result (λ x. length x.now ≤ length parts.now) }
{
    match form {
        Form::List(_) => past_values(count, parts, levels),
        Form::Map(_) => past_pairs(count, parts, levels),
        Form::Array(_) => past_elements(count, parts, levels),
        Form::Described | Form::EmptyList | Form::Scalar(_) => None,
    }
}

/// The bytes behind a block that so many parts fill.
#[cycle(skip)]
fn past_block(form: Form, width: Width, bytes: &[u8], levels: u8) -> Option<&[u8]>
    ensures past { Sees (λ x. x.now) result (block_past (skipped levels) levels form width bytes.now) }
    ensures within { IfSome result (λ x. length x.now ≤ length bytes.now) }
{
    let (content, rest) = take_block(width, bytes)?;
    let (count, parts) = take_size(width, content)?;
    let left = past_parts(form, count, parts, levels)?;
    if left.is_empty() { Some(rest) } else { None }
}

/// The bytes behind a descriptor and a value.
#[cycle(skip)]
fn past_described(bytes: &[u8], levels: u8) -> Option<&[u8]>
    ensures past { Sees (λ x. x.now) result (described_past (skipped levels) bytes.now) }
    ensures within { IfSome result (λ x. length x.now ≤ length bytes.now) }
{
    let value = past(bytes, levels)?;
    past(value, levels)
}

/// The bytes behind what stands after a constructor.
#[cycle(skip)]
fn past_form(form: Form, bytes: &[u8], levels: u8) -> Option<&[u8]>
    ensures past { Sees (λ x. x.now) result (form_past (skipped levels) levels form bytes.now) }
    ensures within { IfSome result (λ x. length x.now ≤ length bytes.now) }
{
    match form {
        Form::Scalar(layout) => past_scalar(layout, bytes),
        Form::EmptyList => Some(bytes),
        Form::Described => past_described(bytes, levels),
        Form::List(width) => past_block(form, width, bytes, levels),
        Form::Map(width) => past_block(form, width, bytes, levels),
        Form::Array(width) => past_block(form, width, bytes, levels),
    }
}

/// The bytes behind the spelling at the front that nests within so many levels; none where there is none.
#[cycle(skip)]
pub(crate) fn past(bytes: &[u8], levels: u8) -> Option<&[u8]>
    ensures past { Sees (λ x. x.now) result (skipped levels bytes.now) }
    ensures within { IfSome result (λ x. length x.now ≤ length bytes.now) }
{
    if levels == 0 {
        return None;
    }
    let (first, rest) = split(bytes)?;
    let form = form_of(first)?;
    past_form(form, rest, levels - 1)
}
