//! What a line of a script says.
ghost use Rattle.std.specs.Prelude.{◌≡◌};
ghost use Rattle.amqp_script.specs.Words.{words_left};
ghost use Rattle.amqp_script.specs.Fields.{Says};
ghost use Rattle.amqp_link_script.specs.Messages.{Made};
ghost use Rattle.amqp_session_script.specs.Line.{number_of as number_in, numbers_in, error_in, ended_in, act_of, session_act as act_for, link_act as link_act_for, act_in, IsAct, step_in, LineSays};

use crate::keys::{SessionKey, has_only};
use amqp_calls::{Act, Call, SessionCall, SessionNumbers, Step};
use amqp_link_script::calls::call as link_call;
use amqp_link_script::messages::with_message;
use amqp_link_script::words::link_word;
use amqp_link_words::LinkCall;
use amqp_script::script::fields::{symbol, uint};
use amqp_script::script::keys::value_at;
use amqp_script::script::line::{act as plain_act, end as side_of};
use amqp_script::script::line_error::LineError;
use amqp_script::script::number::number;
use amqp_script::script::words::{Words, is_text};
use amqp_text::Symbol;
use amqp_words::Act as ConnectionAct;
use std::alloc::Global;
use std::mem;

const SESSION_KEYS: [SessionKey; 4] = [
    SessionKey::Window,
    SessionKey::OutWindow,
    SessionKey::Next,
    SessionKey::Handles,
];

const END_KEYS: [SessionKey; 1] = [SessionKey::Error];

/// The window in transfers where a line does not say it.
const DEFAULT_WINDOW: u32 = 2_048;

/// The highest handle where a line does not say it.
const DEFAULT_HANDLE_MAX: u32 = 255;

/// The number of a key, or its default where the key is left out.
fn number_of(arguments: Words<'_>, key: SessionKey, default: u32) -> Result<u32, LineError>
    ensures { Says (number_in default key (words_left arguments.entry)) result }
{
    match value_at(arguments, key.name()) {
        Some(value) => uint(value),
        None => Ok(default),
    }
}

/// What the arguments say of a session.
fn numbers(arguments: Words<'_>) -> Result<SessionNumbers, LineError>
    ensures { Says (numbers_in (words_left arguments.entry)) result }
{
    if !has_only(&SESSION_KEYS, arguments) {
        return Err(LineError::Outside);
    }
    let next_outgoing_id = number_of(arguments, SessionKey::Next, 0)?;
    let incoming_window = number_of(arguments, SessionKey::Window, DEFAULT_WINDOW)?;
    let outgoing_window = number_of(arguments, SessionKey::OutWindow, DEFAULT_WINDOW)?;
    let handle_max = number_of(arguments, SessionKey::Handles, DEFAULT_HANDLE_MAX)?;
    Ok(SessionNumbers {
        next_outgoing_id,
        incoming_window,
        outgoing_window,
        handle_max,
    })
}

/// The condition of an error, which may be left out.
fn optional_error(alloc: Global, arguments: Words<'_>) -> Result<Option<Symbol>, LineError>
    ensures { Says (error_in (words_left arguments.entry)) result }
{
    match value_at(arguments, SessionKey::Error.name()) {
        Some(value) => {
            let error = symbol(alloc, value)?;
            Ok(Some(error))
        }
        None => Ok(None),
    }
}

/// The end of the session of a name.
fn end(alloc: Global, arguments: Words<'_>) -> Result<SessionCall, LineError>
    ensures { Says (ended_in (words_left arguments.entry)) result }
{
    let mut arguments = arguments;
    let Some(name) = arguments.next() else {
        return Err(LineError::Outside);
    };
    let Some(session) = number(u64::MAX, name) else {
        return Err(LineError::Outside);
    };
    if !has_only(&END_KEYS, arguments) {
        return Err(LineError::Outside);
    }
    let error = optional_error(alloc, arguments)?;
    Ok(SessionCall::End { session, error })
}

fn session_act(call: SessionCall) -> Act
    ensures { result ≡ act_for call }
{
    Act::Call(Call::Session(call))
}

fn link_act(call: LinkCall) -> Act
    ensures { result ≡ link_act_for call }
{
    Act::Call(Call::Link(call))
}

/// The act of a connection among those of all words.
fn connection_act(act: ConnectionAct) -> Act
    ensures { result ≡ act_of act }
{
    match act {
        ConnectionAct::Take(count) => Act::Take(count),
        ConnectionAct::TakeAll => Act::TakeAll,
        ConnectionAct::Call(call) => Act::Call(Call::Connection(call)),
    }
}

/// What a word and its arguments say.
fn act(alloc: Global, word: &[u8], arguments: Words<'_>) -> Result<Act, LineError>
    ensures { Says (act_in word.now (words_left arguments.entry)) result }
{
    if is_text(word, b"begin") {
        let numbers = numbers(arguments)?;
        return Ok(session_act(SessionCall::Begin(numbers)));
    }
    if is_text(word, b"accept_session") {
        let numbers = numbers(arguments)?;
        return Ok(session_act(SessionCall::Accept(numbers)));
    }
    if is_text(word, b"end") {
        let call = end(alloc, arguments)?;
        return Ok(session_act(call));
    }
    if let Some(link) = link_word(word) {
        let call = link_call(alloc, link, arguments)?;
        return Ok(link_act(call));
    }
    let act = plain_act(alloc, word, arguments)?;
    Ok(connection_act(act))
}

/// The step that a line says, its message as it is written.
fn written_step(alloc: Global, line: &[u8]) -> Result<Step, LineError>
    ensures { Says (step_in line.now) result }
{
    let mut words = Words::new(line);
    let (Some(first), Some(second), Some(word)) = (words.next(), words.next(), words.next()) else {
        return Err(LineError::Outside);
    };
    let Some(end) = side_of(first) else {
        return Err(LineError::Outside);
    };
    let Some(at) = number(u64::MAX, second) else {
        return Err(LineError::Outside);
    };
    let act = act(alloc, word, words)?;
    Ok(Step { end, at, act })
}

/// The act of one in which a message stands as it is written.
fn act_with_message(alloc: Global, act: Act) -> Result<Act, LineError>
    ensures { Made (IsAct act) result }
{
    match act {
        Act::Call(Call::Link(call)) => {
            let call = with_message(alloc, call)?;
            Ok(Act::Call(Call::Link(call)))
        }
        other => Ok(other),
    }
}

/// The step that a line says.
pub fn read_step(alloc: Global, line: &[u8]) -> Result<Step, LineError>
    ensures { Made (LineSays line.now) result }
{
    let mut step = written_step(alloc, line)?;
    let act = mem::replace(&mut step.act, Act::TakeAll);
    step.act = act_with_message(alloc, act)?;
    Ok(step)
}
