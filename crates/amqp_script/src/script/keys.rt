//! Arguments `key=value`.
ghost use Rattle.std.specs.Prelude.{◌≡◌, option_map, bytes_eq};
ghost use Rattle.std.specs.List.{list_any};
ghost use Rattle.amqp_script.specs.Keys.{name_of, value_at as value_of, has_only as only_test};
ghost use Rattle.amqp_script.specs.Words.{words_left};

use crate::script::words::{Words, is_text, split_once};

/// What an argument is about.
#[derive(Clone, Copy, Debug, PartialEq, Eq)]
pub enum Key {
    /// The container's id.
    Id,
    /// The host that the other end is to be.
    Host,
    /// The host that is named to the SASL layer.
    SaslHost,
    /// The largest frame in bytes.
    Max,
    /// The highest number of a channel.
    Channels,
    /// The idle time in milliseconds.
    Idle,
    /// The kind of the SASL layer.
    Sasl,
    /// The user.
    User,
    /// The password.
    Pass,
    /// The nonce.
    Nonce,
    /// The salt.
    Salt,
    /// The iteration count.
    Rounds,
    /// The condition of an error.
    Error,
}

impl Key {
    /// How the key is written.
    pub fn name(self) -> &'static [u8]
        ensures { result.now ≡ name_of self }
    {
        match self {
            Key::Id => b"id",
            Key::Host => b"host",
            Key::SaslHost => b"saslhost",
            Key::Max => b"max",
            Key::Channels => b"channels",
            Key::Idle => b"idle",
            Key::Sasl => b"sasl",
            Key::User => b"user",
            Key::Pass => b"pass",
            Key::Nonce => b"nonce",
            Key::Salt => b"salt",
            Key::Rounds => b"rounds",
            Key::Error => b"error",
        }
    }
}

/// The value of the first argument of this name.
pub fn value_at<'a>(arguments: Words<'a>, name: &[u8]) -> Option<&'a [u8]>
    ensures { option_map (λ v. v.now) result ≡ value_of name.now (words_left arguments.entry) }
{
    for argument in arguments {
        if let Some((key, value)) = split_once(argument, b'=')
            && is_text(key, name)
        {
            return Some(value);
        }
    }
    None
}

fn is_one_of(keys: &[Key], name: &[u8]) -> bool
    ensures { result ≡ list_any (λ key. bytes_eq name.now (name_of key)) keys.now }
{
    keys.iter().any(|key| is_text(name, key.name()))
}

/// Whether each argument has one of these keys, and each key comes at most once.
pub fn has_only(keys: &[Key], arguments: Words<'_>) -> bool
    ensures { result ≡ only_test keys.now (words_left arguments.entry) }
{
    let mut later = arguments;
    'arguments: while let Some(argument) = later.next() {
        let Some((name, _)) = split_once(argument, b'=') else {
            return false;
        };
        if !is_one_of(keys, name) || value_at(later, name).is_some() {
            return false;
        }
    }
    true
}
