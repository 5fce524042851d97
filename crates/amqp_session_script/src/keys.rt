//! Arguments `key=value` of the words of sessions.
ghost use Rattle.std.specs.Prelude.{◌≡◌, bytes_eq};
ghost use Rattle.std.specs.List.{list_any};
ghost use Rattle.amqp_script.specs.Words.{words_left};
ghost use Rattle.amqp_session_script.specs.Keys.{name_of, has_only as only_test};

use amqp_script::script::keys::value_at;
use amqp_script::script::words::{Words, is_text, split_once};

/// What an argument of a session's word is about.
#[derive(Clone, Copy, Debug, PartialEq, Eq)]
pub enum SessionKey {
    /// How many transfers the end takes.
    Window,
    /// How many transfers the end may send.
    OutWindow,
    /// The number of the first transfer.
    Next,
    /// The highest handle.
    Handles,
    /// The condition of an error.
    Error,
}

impl SessionKey {
    /// How the key is written.
    pub fn name(self) -> &'static [u8]
        ensures { result.now ≡ name_of self }
    {
        match self {
            SessionKey::Window => b"window",
            SessionKey::OutWindow => b"outwindow",
            SessionKey::Next => b"next",
            SessionKey::Handles => b"handles",
            SessionKey::Error => b"error",
        }
    }
}

fn is_one_of(keys: &[SessionKey], name: &[u8]) -> bool
    ensures { result ≡ list_any (λ key. bytes_eq name.now (name_of key)) keys.now }
{
    keys.iter().any(|key| is_text(name, key.name()))
}

/// Whether each argument has one of these keys, and each key comes at most once.
pub fn has_only(keys: &[SessionKey], arguments: Words<'_>) -> bool
    ensures { result ≡ only_test keys.now (words_left arguments.entry) }
{
    let mut later = arguments;
    'arguments: while let Some(argument) = later.next() {
        let Some((name, _)) = split_once(argument, b'=') else {
            return false;
        };
        if !is_one_of(keys, name) || value_at(later, name).is_some() {
            return false;
        }
    }
    true
}
