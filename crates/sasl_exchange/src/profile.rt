//! What a client authenticates with.
ghost use Rattle.std.specs.Prelude.{◌≡◌, IsUtf8, IfOk};
ghost use Rattle.std.specs.Option.{SomeIff};
ghost use Rattle.percent_encoding.specs.Percent as percent;
ghost use Rattle.sasl_exchange.specs.UserInfo.{HasUserInfo};

use amqp_text::Text;
use percent_encoding::{DecodeError, percent_decode};
use std::alloc::{AllocError, Global};
use url::Url;

/// What a client authenticates with.
#[derive(Debug, Drop)]
pub enum SaslProfile {
    /// ANONYMOUS (RFC 4505).
    Anonymous,
    /// PLAIN (RFC 4616).
    Plain {
        /// The user: 1 or more characters from 0x20 to 0x7e.
        username: Text,
        /// The password: characters from 0x20 to 0x7e.
        password: Text,
    },
    /// SCRAM-SHA-1 (RFC 5802).
    ScramSha1 {
        /// The user: 1 or more characters from 0x20 to 0x7e.
        username: Text,
        /// The password: characters from 0x20 to 0x7e.
        password: Text,
        /// The client's nonce: 1 or more characters from 0x21 to 0x7e other than the comma, new for each exchange.
        nonce: Text,
    },
    /// SCRAM-SHA-256 (RFC 7677).
    ScramSha256 {
        /// The user: 1 or more characters from 0x20 to 0x7e.
        username: Text,
        /// The password: characters from 0x20 to 0x7e.
        password: Text,
        /// The client's nonce: 1 or more characters from 0x21 to 0x7e other than the comma, new for each exchange.
        nonce: Text,
    },
    /// SCRAM-SHA-512: the form of RFC 7677 with SHA-512.
    ScramSha512 {
        /// The user: 1 or more characters from 0x20 to 0x7e.
        username: Text,
        /// The password: characters from 0x20 to 0x7e.
        password: Text,
        /// The client's nonce: 1 or more characters from 0x21 to 0x7e other than the comma, new for each exchange.
        nonce: Text,
    },
}

// A part of a URL with its escapes read, where that is UTF-8.
fn decoded(alloc: Global, part: &str) -> Result<Option<Text>, AllocError>
    ensures { IfOk result (λ text. SomeIff text (IsUtf8 (percent.percent_decode part.now)) (percent.percent_decode part.now)) }
{
    match percent_decode(part.as_bytes()).decode_utf8(alloc) {
        Ok(text) => {
            let text = Text::from_str(alloc, text.as_str())?;
            Ok(Some(text))
        }
        Err(DecodeError::Utf8(_)) => Ok(None),
        Err(DecodeError::OutOfMemory) => Err(AllocError),
    }
}

impl SaslProfile {
    /// PLAIN with the user and the password of a URL (URL Standard, section 4.1), their escapes read: exactly where both
    /// are there and are UTF-8 then. The one error is want of memory.
    pub fn from_url(alloc: Global, url: &Url) -> Result<Option<Self>, AllocError>
        ensures { IfOk result (λ profile. SomeIff profile (HasUserInfo url.now)
            (SaslProfile.Plain (percent.percent_decode url.now.username) (percent.percent_decode url.now.password))) }
    {
        let username = url.username();
        let Some(password) = url.password() else {
            return Ok(None);
        };
        if username.is_empty() {
            return Ok(None);
        }
        let Some(username) = decoded(alloc, username)? else {
            return Ok(None);
        };
        match decoded(alloc, password)? {
            Some(password) => Ok(Some(SaslProfile::Plain { username, password })),
            None => Ok(None),
        }
    }

    /// A copy; the one error is want of memory.
    pub fn try_clone(&self, alloc: Global) -> Result<Self, AllocError>
        ensures { IfOk result (λ p. p ≡ self.now) }
    {
        match self {
            SaslProfile::Anonymous => Ok(SaslProfile::Anonymous),
            SaslProfile::Plain { username, password } => Ok(SaslProfile::Plain {
                username: username.try_clone(alloc)?,
                password: password.try_clone(alloc)?,
            }),
            SaslProfile::ScramSha1 {
                username,
                password,
                nonce,
            } => Ok(SaslProfile::ScramSha1 {
                username: username.try_clone(alloc)?,
                password: password.try_clone(alloc)?,
                nonce: nonce.try_clone(alloc)?,
            }),
            SaslProfile::ScramSha256 {
                username,
                password,
                nonce,
            } => Ok(SaslProfile::ScramSha256 {
                username: username.try_clone(alloc)?,
                password: password.try_clone(alloc)?,
                nonce: nonce.try_clone(alloc)?,
            }),
            SaslProfile::ScramSha512 {
                username,
                password,
                nonce,
            } => Ok(SaslProfile::ScramSha512 {
                username: username.try_clone(alloc)?,
                password: password.try_clone(alloc)?,
                nonce: nonce.try_clone(alloc)?,
            }),
        }
    }
}
