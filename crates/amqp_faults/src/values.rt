//! Where no value begins bytes, and why (OASIS AMQP 1.0, part 1, sections 1.2 and 1.6). A reader says which parts are values;
//! from the outermost value on, the walk goes into the first part that is none.
ghost use Rattle.std.specs.Prelude.{◌≡◌, ◌+◌, ◌≤◌, ◌<◌, ◌^◌, suc, length, option_map, IfOk};
ghost use Rattle.amqp_value.specs.Reading.{value_at};
ghost use Rattle.amqp_faults.specs.Faults.{value_past, element_past, width_in, within_block, placed, Wrong, WrongBehind, WrongParts, WrongPairs, WrongScalar, WrongElements};
ghost use Rattle.amqp_faults.specs.Sees.{Unfilled, NoneBehind, NoneIn, NoPairs, SeesPair, SeesElement, IsWithin};
ghost use Rattle.amqp_faults.specs.Names.{NamesFault};

use crate::blocks::{split, take_block, take_size};
use crate::fault::{Fault, Reason};
use crate::form::{Form, Layout, Width, element_layout, form_of, reason_of_code};
use crate::front::{front, past};
use crate::scalars::pass;
use amqp_value::Value;
use indexmap::IndexSet;
use std::alloc::{AllocError, Global};

/// A fault in what a block holds: at the compound itself, or so many bytes behind its count.
#[derive(Clone, Copy)]
struct Found {
    place: Option<usize>,
    reason: Reason,
}

/// A key and a value at the front of bytes: the key and the bytes after both, or what is wrong with one of them.
#[derive(Drop)]
enum Pair<'a> {
    Read(Value, &'a [u8]),
    Wrong(Fault),
}

fn here(reason: Reason) -> Fault
    ensures { result ≡ record { offset = 0; reason = reason } }
{
    Fault { offset: 0, reason }
}

fn whole(reason: Reason) -> Found
    ensures { result ≡ record { place = None; reason = reason } }
{
    Found {
        place: None,
        reason,
    }
}

/// What ends in a block ends with it: where its bytes end too early, the size does not agree with what it holds.
fn within_block(reason: Reason) -> Reason
    ensures { result ≡ within_block reason }
{
    match reason {
        Reason::CutShort => Reason::Sizes,
        _ => reason,
    }
}

impl Fault {
    /// The same fault, so many bytes further on.
    fn behind(self, bytes: usize) -> Fault
        requires { bytes + self.offset < 2 ^ 64 }
        ensures { result ≡ record { offset = bytes + self.offset; reason = self.reason } }
    {
        Fault {
            offset: bytes + self.offset,
            reason: self.reason,
        }
    }

    /// The same fault in a block, so many bytes behind its count.
    fn in_block(self, bytes: usize) -> Found
        requires { bytes + self.offset < 2 ^ 64 }
        ensures { result ≡ record { place = Some (bytes + self.offset); reason = within_block self.reason } }
    {
        Found {
            place: Some(bytes + self.offset),
            reason: within_block(self.reason),
        }
    }
}

impl Found {
    /// The same fault, one byte further on.
    fn behind_one(self) -> Found
        requires { IsWithin self.place (2 ^ 63) }
        ensures { result ≡ record { place = option_map suc self.place; reason = self.reason } }
    {
        Found {
            place: self.place.map(|bytes| bytes + 1),
            reason: self.reason,
        }
    }

    /// The fault, counted from the constructor of its block.
    fn placed(self, width: Width) -> Fault
        requires { placed width self.place < 2 ^ 64 }
        ensures { result ≡ record { offset = placed width self.place; reason = self.reason } }
    {
        match self.place {
            None => here(self.reason),
            Some(bytes) => Fault {
                offset: 1 + 2 * width.octets() + bytes,
                reason: self.reason,
            },
        }
    }
}

/// Why a value that holds no other is none, behind its constructor.
fn fault_in_scalar(layout: Layout, rest: &[u8]) -> Fault
    requires { NoneBehind 0 (Form.Scalar layout) rest.now }
    ensures { (result.offset ≡ 0) × WrongScalar layout rest.now result.reason }
{
    match pass(layout, rest) {
        Ok(_) => unreachable!(),
        Err(reason) => here(reason),
    }
}

/// The bytes after an element, or why it is none.
fn element(layout: Layout, bytes: &[u8], depth: u8) -> Result<&[u8], Reason>
    ensures { SeesElement (λ x. x.now) result depth layout bytes.now }
{
    if depth == 0 {
        return Err(Reason::TooDeep);
    }
    pass(layout, bytes)
}

/// Why so many elements do not fill the bytes.
fn fault_in_elements(layout: Layout, count: u32, elements: &[u8], depth: u8) -> Found
    requires { Unfilled (element_past depth layout) count elements.now }
    ensures wrong { WrongElements depth layout count elements.now result.place result.reason }
    ensures within { IsWithin result.place (length elements.now) }
{
    let mut rest = elements;
    'elements: for _ in 0..count {
        match element(layout, rest, depth) {
            Ok(after) => rest = after,
            Err(reason) => {
                return Found {
                    place: Some(elements.len() - rest.len()),
                    reason: within_block(reason),
                };
            }
        }
    }
    match rest {
        [] => unreachable!(),
        [_, ..] => whole(Reason::Sizes),
    }
}

/// Why a constructor and so many elements do not fill the bytes.
fn fault_in_array(count: u32, parts: &[u8], depth: u8) -> Found
    requires { NoneIn depth (Form.Array Width.One) count parts.now }
    ensures wrong { (w : Width) → WrongParts depth (Form.Array w) count parts.now result.place result.reason }
    ensures within { IsWithin result.place (length parts.now) }
{
    let Some((first, elements)) = split(parts) else {
        return whole(Reason::Sizes);
    };
    match element_layout(first) {
        None => Found {
            place: Some(0),
            reason: reason_of_code(first),
        },
        Some(layout) => fault_in_elements(layout, count, elements, depth).behind_one(),
    }
}

/// Why so many values do not fill the bytes.
#[cycle(fault)]
fn fault_in_list(alloc: Global, count: u32, parts: &[u8], depth: u8) -> Result<Found, AllocError>
    requires { Unfilled (value_past depth) count parts.now }
    ensures wrong { IfOk result (λ x. (w : Width) → WrongParts depth (Form.List w) count parts.now x.place x.reason) }
    ensures within { IfOk result (λ x. IsWithin x.place (length parts.now)) }
{
    let mut rest = parts;
    'values: for _ in 0..count {
        match past(alloc, rest, depth)? {
            Some(after) => rest = after,
            None => {
                let fault = fault_at(alloc, rest, depth)?;
                return Ok(fault.in_block(parts.len() - rest.len()));
            }
        }
    }
    match rest {
        [] => unreachable!(),
        [_, ..] => Ok(whole(Reason::Sizes)),
    }
}

/// The key and the value at the front.
#[cycle(fault)]
fn front_pair(alloc: Global, bytes: &[u8], depth: u8) -> Result<Pair<'_>, AllocError>
    ensures { IfOk result (λ x. SeesPair x depth bytes.now) }
{
    let Some((key, after)) = front(alloc, bytes, depth)? else {
        let fault = fault_at(alloc, bytes, depth)?;
        return Ok(Pair::Wrong(fault));
    };
    match past(alloc, after, depth)? {
        Some(rest) => Ok(Pair::Read(key, rest)),
        None => {
            let fault = fault_at(alloc, after, depth)?;
            Ok(Pair::Wrong(fault.behind(bytes.len() - after.len())))
        }
    }
}

/// Why so many keys and values do not fill the bytes, or no key may come twice among them.
#[cycle(fault)]
fn fault_in_pairs(alloc: Global, count: u32, parts: &[u8], depth: u8) -> Result<Found, AllocError>
    requires { NoPairs depth count parts.now }
    ensures wrong { IfOk result (λ x. WrongPairs depth count parts.now x.place x.reason) }
    ensures within { IfOk result (λ x. IsWithin x.place (length parts.now)) }
{
    let mut seen: IndexSet<Value> = IndexSet::new(alloc);
    let mut rest = parts;
    'pairs: for _ in 0..count {
        let place = parts.len() - rest.len();
        match front_pair(alloc, rest, depth)? {
            Pair::Wrong(fault) => return Ok(fault.in_block(place)),
            Pair::Read(key, after) => {
                if !seen.insert(key)? {
                    return Ok(Found {
                        place: Some(place),
                        reason: Reason::KeyTwice,
                    });
                }
                rest = after;
            }
        }
    }
    match rest {
        [] => unreachable!(),
        [_, ..] => Ok(whole(Reason::Sizes)),
    }
}

/// Why keys and values, as many as the count says, are no map.
#[cycle(fault)]
fn fault_in_map(alloc: Global, count: u32, parts: &[u8], depth: u8) -> Result<Found, AllocError>
    requires { NoneIn depth (Form.Map Width.One) count parts.now }
    ensures wrong { IfOk result (λ x. (w : Width) → WrongParts depth (Form.Map w) count parts.now x.place x.reason) }
    ensures within { IfOk result (λ x. IsWithin x.place (length parts.now)) }
{
    if count % 2 != 0 {
        return Ok(whole(Reason::Sizes));
    }
    fault_in_pairs(alloc, count / 2, parts, depth)
}

/// Why so many parts are no compound of that form.
#[cycle(fault)]
fn fault_in_parts(
    alloc: Global,
    form: Form,
    count: u32,
    parts: &[u8],
    depth: u8,
) -> Result<Found, AllocError>
    requires { NoneIn depth form count parts.now }
    ensures wrong { IfOk result (λ x. WrongParts depth form count parts.now x.place x.reason) }
    ensures within { IfOk result (λ x. IsWithin x.place (length parts.now)) }
{
    match form {
        Form::List(_) => fault_in_list(alloc, count, parts, depth),
        Form::Map(_) => fault_in_map(alloc, count, parts, depth),
        Form::Array(_) => Ok(fault_in_array(count, parts, depth)),
        Form::Described | Form::EmptyList | Form::Scalar(_) => unreachable!(),
    }
}

/// Why a compound is none, behind its constructor.
#[cycle(fault)]
fn fault_in_block(
    alloc: Global,
    form: Form,
    width: Width,
    rest: &[u8],
    depth: u8,
) -> Result<Fault, AllocError>
    requires width { width_in form ≡ Some width }
    requires none { NoneBehind depth form rest.now }
    ensures wrong { IfOk result (λ f. WrongBehind depth form rest.now f.offset f.reason) }
    ensures within { IfOk result (λ f. f.offset ≤ 1 + length rest.now) }
{
    let Some((content, _)) = take_block(width, rest) else {
        return Ok(here(Reason::CutShort));
    };
    let Some((count, parts)) = take_size(width, content) else {
        return Ok(here(Reason::Sizes));
    };
    let found = fault_in_parts(alloc, form, count, parts, depth)?;
    Ok(found.placed(width))
}

/// Why a descriptor and a value are none.
#[cycle(fault)]
fn fault_in_described(alloc: Global, rest: &[u8], depth: u8) -> Result<Fault, AllocError>
    requires { NoneBehind depth Form.Described rest.now }
    ensures wrong { IfOk result (λ f. WrongBehind depth Form.Described rest.now f.offset f.reason) }
    ensures within { IfOk result (λ f. f.offset ≤ 1 + length rest.now) }
{
    match past(alloc, rest, depth)? {
        None => {
            let fault = fault_at(alloc, rest, depth)?;
            Ok(fault.behind(1))
        }
        Some(after) => {
            let fault = fault_at(alloc, after, depth)?;
            Ok(fault.behind(1 + (rest.len() - after.len())))
        }
    }
}

/// Why a value is none, behind its constructor.
#[cycle(fault)]
fn fault_behind(alloc: Global, form: Form, rest: &[u8], depth: u8) -> Result<Fault, AllocError>
    requires { NoneBehind depth form rest.now }
    ensures wrong { IfOk result (λ f. WrongBehind depth form rest.now f.offset f.reason) }
    ensures within { IfOk result (λ f. f.offset ≤ 1 + length rest.now) }
{
    match form {
        Form::Scalar(layout) => Ok(fault_in_scalar(layout, rest)),
        Form::EmptyList => unreachable!(),
        Form::Described => fault_in_described(alloc, rest, depth),
        Form::List(width) => fault_in_block(alloc, form, width, rest, depth),
        Form::Map(width) => fault_in_block(alloc, form, width, rest, depth),
        Form::Array(width) => fault_in_block(alloc, form, width, rest, depth),
    }
}

/// Where the value is wrong that is to begin the bytes and to be nested no deeper than the number, and why.
#[cycle(fault)]
fn fault_at(alloc: Global, bytes: &[u8], depth: u8) -> Result<Fault, AllocError>
    requires { value_at depth bytes.now ≡ None }
    ensures wrong { IfOk result (λ f. Wrong depth bytes.now f.offset f.reason) }
    ensures within { IfOk result (λ f. f.offset ≤ length bytes.now) }
{
    if depth == 0 {
        return Ok(here(Reason::TooDeep));
    }
    let Some((first, rest)) = split(bytes) else {
        return Ok(here(Reason::CutShort));
    };
    match form_of(first) {
        None => Ok(here(reason_of_code(first))),
        Some(form) => fault_behind(alloc, form, rest, depth - 1),
    }
}

/// Where no value begins the input that is nested at most so many levels deep, and why: none exactly where one begins it, as
/// `read_value_within` reads it. The one error is want of memory.
pub fn fault_in(alloc: Global, input: &[u8], levels: u8) -> Result<Option<Fault>, AllocError>
    ensures { IfOk result (λ o. NamesFault o levels input.now) }
{
    match past(alloc, input, levels)? {
        Some(_) => Ok(None),
        None => {
            let fault = fault_at(alloc, input, levels)?;
            Ok(Some(fault))
        }
    }
}
