//! What a line says.
ghost use Rattle.std.specs.Prelude.{◌≡◌};
ghost use Rattle.amqp_script.specs.Words.{words_left};
ghost use Rattle.amqp_script.specs.Fields.{Says};
ghost use Rattle.amqp_script.specs.Line.{open_in, accept_in, close_in, amount_in, take_in, act_in, end_in, step_in};

use crate::script::fields::{optional_symbol, optional_text};
use crate::script::keys::{Key, has_only};
use crate::script::line_error::LineError;
use crate::script::number::number;
use crate::script::sasl::{client_sasl, fits_accept, fits_open, listener_sasl, sasl_kind};
use crate::script::settings::settings;
use crate::script::words::{Words, is_text};
use amqp_words::{Act, Call, End, Step};
use std::alloc::Global;

const CLOSE_KEYS: [Key; 1] = [Key::Error];

fn open(alloc: Global, arguments: Words<'_>) -> Result<Act, LineError>
    ensures { Says (open_in (words_left arguments.entry)) result }
{
    let kind = sasl_kind(arguments)?;
    if !fits_open(kind, arguments) {
        return Err(LineError::Outside);
    }
    let settings = settings(alloc, arguments)?;
    let sasl_hostname = optional_text(alloc, arguments, Key::SaslHost)?;
    let sasl = client_sasl(alloc, kind, arguments)?;
    Ok(Act::Call(Call::Open {
        settings,
        sasl_hostname,
        sasl,
    }))
}

fn accept(alloc: Global, arguments: Words<'_>) -> Result<Act, LineError>
    ensures { Says (accept_in (words_left arguments.entry)) result }
{
    let kind = sasl_kind(arguments)?;
    if !fits_accept(kind, arguments) {
        return Err(LineError::Outside);
    }
    let settings = settings(alloc, arguments)?;
    let sasl = listener_sasl(alloc, kind, arguments)?;
    Ok(Act::Call(Call::Accept { settings, sasl }))
}

fn close(alloc: Global, arguments: Words<'_>) -> Result<Act, LineError>
    ensures { Says (close_in (words_left arguments.entry)) result }
{
    if !has_only(&CLOSE_KEYS, arguments) {
        return Err(LineError::Outside);
    }
    let error = optional_symbol(alloc, arguments, Key::Error)?;
    Ok(Act::Call(Call::Close { error }))
}

/// How many bytes are moved.
fn amount(argument: &[u8]) -> Option<Act>
    ensures { result ≡ amount_in argument.now }
{
    if is_text(argument, b"all") {
        return Some(Act::TakeAll);
    }
    match number(u64::MAX, argument) {
        Some(count) => Some(Act::Take(count)),
        None => None,
    }
}

fn take(arguments: Words<'_>) -> Option<Act>
    ensures { result ≡ take_in (words_left arguments.entry) }
{
    let mut arguments = arguments;
    let argument = arguments.next()?;
    if arguments.next().is_some() {
        return None;
    }
    amount(argument)
}

/// What a word and its arguments say.
pub fn act(alloc: Global, word: &[u8], arguments: Words<'_>) -> Result<Act, LineError>
    ensures { Says (act_in word.now (words_left arguments.entry)) result }
{
    if is_text(word, b"take") {
        return take(arguments).ok_or(LineError::Outside);
    }
    if is_text(word, b"open") {
        return open(alloc, arguments);
    }
    if is_text(word, b"accept") {
        return accept(alloc, arguments);
    }
    if is_text(word, b"close") {
        return close(alloc, arguments);
    }
    Err(LineError::Outside)
}

/// The end that a word names.
pub fn end(word: &[u8]) -> Option<End>
    ensures { result ≡ end_in word.now }
{
    if is_text(word, b"c") {
        return Some(End::Client);
    }
    if is_text(word, b"l") {
        return Some(End::Listener);
    }
    None
}

/// The step that a line says.
pub fn read_line(alloc: Global, line: &[u8]) -> Result<Step, LineError>
    ensures { Says (step_in line.now) result }
{
    let mut words = Words::new(line);
    let (Some(first), Some(second), Some(word)) = (words.next(), words.next(), words.next()) else {
        return Err(LineError::Outside);
    };
    let Some(end) = end(first) else {
        return Err(LineError::Outside);
    };
    let Some(at) = number(u64::MAX, second) else {
        return Err(LineError::Outside);
    };
    let act = act(alloc, word, words)?;
    Ok(Step { end, at, act })
}
