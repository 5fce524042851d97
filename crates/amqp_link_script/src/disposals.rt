//! What a line says of the state in which deliveries end (OASIS AMQP 1.0, part 3, section 3.4), and which deliveries.
ghost use Rattle.std.specs.Prelude.{◌-◌, ◌^◌};
ghost use Rattle.amqp_script.specs.Fields.{Says};
ghost use Rattle.amqp_script.specs.Number.{number_in};
ghost use Rattle.amqp_link_script.specs.Disposals.{plain_state_in, flags_in, told_state_in, state_in, with_last, names_in};

use crate::keys::ulong;
use amqp_link_words::{Disposal, NameList};
use amqp_script::script::fields::symbol;
use amqp_script::script::line_error::LineError;
use amqp_script::script::words::{is_text, split_once};
use std::alloc::Global;

fn plain_state(word: &[u8]) -> Result<Disposal, LineError>
    ensures { Says (plain_state_in word.now) result }
{
    if is_text(word, b"accepted") {
        return Ok(Disposal::Accepted);
    }
    if is_text(word, b"released") {
        return Ok(Disposal::Released);
    }
    if is_text(word, b"rejected") {
        return Ok(Disposal::Rejected(None));
    }
    if is_text(word, b"modified") {
        return Ok(Disposal::Modified {
            delivery_failed: false,
            undeliverable_here: false,
        });
    }
    Err(LineError::Outside)
}

/// What the letters behind `modified:` say.
fn flags(letters: &[u8]) -> Result<Disposal, LineError>
    ensures { Says (flags_in letters.now) result }
{
    if is_text(letters, b"f") {
        return Ok(Disposal::Modified {
            delivery_failed: true,
            undeliverable_here: false,
        });
    }
    if is_text(letters, b"u") {
        return Ok(Disposal::Modified {
            delivery_failed: false,
            undeliverable_here: true,
        });
    }
    if is_text(letters, b"fu") {
        return Ok(Disposal::Modified {
            delivery_failed: true,
            undeliverable_here: true,
        });
    }
    Err(LineError::Outside)
}

fn told_state(alloc: Global, state: &[u8], told: &[u8]) -> Result<Disposal, LineError>
    ensures { Says (told_state_in state.now told.now) result }
{
    if is_text(state, b"rejected") {
        let condition = symbol(alloc, told)?;
        return Ok(Disposal::Rejected(Some(condition)));
    }
    if is_text(state, b"modified") {
        return flags(told);
    }
    Err(LineError::Outside)
}

/// The state that a word says.
pub fn state(alloc: Global, word: &[u8]) -> Result<Disposal, LineError>
    ensures { Says (state_in word.now) result }
{
    match split_once(word, b':') {
        Some((state, told)) => told_state(alloc, state, told),
        None => plain_state(word),
    }
}

/// The names, and the last one that a word says.
fn with_last(names: NameList, word: &[u8]) -> Result<NameList, LineError>
    ensures { Says (with_last names (number_in (2 ^ 64 - 1) word.now)) result }
{
    let mut names = names;
    names.push(ulong(word)?)?;
    Ok(names)
}

/// The names of deliveries that a word says, one or more.
#[tactic(auto, using(crate::proofs::Names::name_more, crate::proofs::Names::says_bad, crate::proofs::Names::says_last))]
pub fn names(alloc: Global, word: &[u8]) -> Result<NameList, LineError>
    ensures { Says (names_in word.now) result }
{
    let mut names = NameList::new(alloc);
    let mut rest = word;
    'names: while let Some((first, after)) = split_once(rest, b',') {
        match ulong(first) {
            Ok(name) => names.push(name)?,
            Err(error) => return Err(error),
        }
        rest = after;
    }
    with_last(names, rest)
}
