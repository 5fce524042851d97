//! Arguments `key=value` of the words of links.
ghost use Rattle.std.specs.Prelude.{◌≡◌, ◌-◌, ◌^◌, bytes_eq, option_map};
ghost use Rattle.std.specs.List.{list_any};
ghost use Rattle.amqp_script.specs.Fields.{Says};
ghost use Rattle.amqp_script.specs.Number.{number_in};
ghost use Rattle.amqp_script.specs.Words.{words_left};
ghost use Rattle.amqp_link_script.specs.Keys.{name_of, has_only as only_test, value_of as value_in, optional_text_in, yes_in, flag_in, choice_in, optional_choice_in, count_in, max_in, timeout_in};

use amqp_script::script::fields::{text, uint};
use amqp_script::script::keys::value_at;
use amqp_script::script::line_error::LineError;
use amqp_script::script::number::number;
use amqp_script::script::words::{Words, is_text, split_once};
use amqp_text::Text;
use std::alloc::Global;

/// What an argument of a link's word is about.
#[derive(Clone, Copy, Debug, PartialEq, Eq)]
pub enum LinkKey {
    /// The name of the link.
    Name,
    /// The address of the source.
    Source,
    /// The address of the target.
    Target,
    /// When the sender settles.
    Snd,
    /// When the receiver settles.
    Rcv,
    /// The largest message, in bytes.
    Max,
    /// Where the delivery-count begins.
    Count,
    /// Whether the peer is to make the node.
    Dynamic,
    /// When credit is given.
    Credit,
    /// The address of the nodes that the end makes.
    Dyn,
    /// Whether a message is sent settled.
    Settled,
    /// Whether the receiver may wait with its Disposition.
    Batchable,
    /// Whether a receiver accepts each delivery as it gives it.
    Auto,
    /// The condition of an error.
    Error,
    /// How long a call waits, in milliseconds.
    Timeout,
}

impl LinkKey {
    /// How the key is written.
    pub fn name(self) -> &'static [u8]
        ensures { result.now ≡ name_of self }
    {
        match self {
            LinkKey::Name => b"name",
            LinkKey::Source => b"source",
            LinkKey::Target => b"target",
            LinkKey::Snd => b"snd",
            LinkKey::Rcv => b"rcv",
            LinkKey::Max => b"max",
            LinkKey::Count => b"count",
            LinkKey::Dynamic => b"dynamic",
            LinkKey::Credit => b"credit",
            LinkKey::Dyn => b"dyn",
            LinkKey::Settled => b"settled",
            LinkKey::Batchable => b"batchable",
            LinkKey::Auto => b"auto",
            LinkKey::Error => b"error",
            LinkKey::Timeout => b"timeout",
        }
    }
}

fn is_one_of(keys: &[LinkKey], name: &[u8]) -> bool
    ensures { result ≡ list_any (λ key. bytes_eq name.now (name_of key)) keys.now }
{
    keys.iter().any(|key| is_text(name, key.name()))
}

/// Whether each argument has one of these keys, and each key comes at most once.
pub fn has_only(keys: &[LinkKey], arguments: Words<'_>) -> bool
    ensures { result ≡ only_test keys.now (words_left arguments.entry) }
{
    let mut later = arguments;
    'arguments: while let Some(argument) = later.next() {
        let Some((name, _)) = split_once(argument, b'=') else {
            return false;
        };
        if !is_one_of(keys, name) || value_at(later, name).is_some() {
            return false;
        }
    }
    true
}

/// The value of a key, if it is there.
pub fn value_of<'a>(arguments: Words<'a>, key: LinkKey) -> Option<&'a [u8]>
    ensures { option_map (λ v. v.now) result ≡ value_in key (words_left arguments.entry) }
{
    value_at(arguments, key.name())
}

/// The text of a key that may be left out.
pub fn optional_text(
    alloc: Global,
    arguments: Words<'_>,
    key: LinkKey,
) -> Result<Option<Text>, LineError>
    ensures { Says (optional_text_in key (words_left arguments.entry)) result }
{
    match value_of(arguments, key) {
        Some(value) => {
            let text = text(alloc, value)?;
            Ok(Some(text))
        }
        None => Ok(None),
    }
}

fn yes(word: &[u8]) -> Result<bool, LineError>
    ensures { Says (yes_in word.now) result }
{
    if is_text(word, b"yes") {
        return Ok(true);
    }
    Err(LineError::Outside)
}

/// Whether a key says `yes`; else it is left out.
pub fn flag(arguments: Words<'_>, key: LinkKey) -> Result<bool, LineError>
    ensures { Says (flag_in key (words_left arguments.entry)) result }
{
    match value_of(arguments, key) {
        Some(value) => yes(value),
        None => Ok(false),
    }
}

/// What `yes` or `no` says.
pub fn choice(word: &[u8]) -> Result<bool, LineError>
    ensures { Says (choice_in word.now) result }
{
    if is_text(word, b"yes") {
        return Ok(true);
    }
    if is_text(word, b"no") {
        return Ok(false);
    }
    Err(LineError::Outside)
}

/// Whether a key says `yes` or `no`, if it is there.
pub fn optional_choice(arguments: Words<'_>, key: LinkKey) -> Result<Option<bool>, LineError>
    ensures { Says (optional_choice_in key (words_left arguments.entry)) result }
{
    match value_of(arguments, key) {
        Some(value) => {
            let choice = choice(value)?;
            Ok(Some(choice))
        }
        None => Ok(None),
    }
}

/// Where the delivery-count of a sender begins: at 0 where no key says it.
pub fn count(arguments: Words<'_>) -> Result<u32, LineError>
    ensures { Says (count_in (words_left arguments.entry)) result }
{
    match value_of(arguments, LinkKey::Count) {
        Some(value) => uint(value),
        None => Ok(0),
    }
}

/// A number below 2^64.
pub fn ulong(argument: &[u8]) -> Result<u64, LineError>
    ensures { Says (number_in (2 ^ 64 - 1) argument.now) result }
{
    number(u64::MAX, argument).ok_or(LineError::Outside)
}

/// How long a call waits, in milliseconds, where the key is there.
pub fn timeout(arguments: Words<'_>) -> Result<Option<u64>, LineError>
    ensures { Says (timeout_in (words_left arguments.entry)) result }
{
    match value_of(arguments, LinkKey::Timeout) {
        Some(value) => {
            let timeout = ulong(value)?;
            Ok(Some(timeout))
        }
        None => Ok(None),
    }
}

/// The largest message in bytes, where there is a limit.
pub fn max_message_size(arguments: Words<'_>) -> Result<Option<u64>, LineError>
    ensures { Says (max_in (words_left arguments.entry)) result }
{
    match value_of(arguments, LinkKey::Max) {
        Some(value) => {
            let size = ulong(value)?;
            Ok(Some(size))
        }
        None => Ok(None),
    }
}
