//! Whom a listener lets in.
ghost use Rattle.std.specs.Prelude.{◌≡◌, IfOk};
ghost use Rattle.amqp_opening.specs.Admission.{scram, admission_of, admission_in, acceptor_in, scram_acceptor};

use amqp_text::{Binary, Text};
use sasl_gate::ScramHash;
use sasl_scram::hash::ScramHash::{Sha1, Sha256, Sha512};
use std::alloc::{AllocError, Global};

/// Whom a listener lets in: anyone, or one user.
#[derive(Debug)]
pub enum AcceptSasl {
    /// ANONYMOUS (RFC 4505): anyone.
    Anonymous,
    /// PLAIN (RFC 4616).
    Plain {
        /// The user: 1 or more characters from 0x20 to 0x7e.
        username: Text,
        /// The password: characters from 0x20 to 0x7e.
        password: Text,
    },
    /// SCRAM-SHA-1 (RFC 5802).
    ScramSha1 {
        /// The user: 1 or more characters from 0x20 to 0x7e.
        username: Text,
        /// The password: characters from 0x20 to 0x7e.
        password: Text,
        /// The salt: 1 to 64 bytes.
        salt: Binary,
        /// The iteration count: 1 to 10,000,000.
        iterations: u32,
        /// The listener's nonce: 1 or more characters from 0x21 to 0x7e other than the comma, new for each exchange.
        nonce: Text,
    },
    /// SCRAM-SHA-256 (RFC 7677).
    ScramSha256 {
        /// The user: 1 or more characters from 0x20 to 0x7e.
        username: Text,
        /// The password: characters from 0x20 to 0x7e.
        password: Text,
        /// The salt: 1 to 64 bytes.
        salt: Binary,
        /// The iteration count: 1 to 10,000,000.
        iterations: u32,
        /// The listener's nonce: 1 or more characters from 0x21 to 0x7e other than the comma, new for each exchange.
        nonce: Text,
    },
    /// SCRAM-SHA-512: the form of RFC 7677 with SHA-512.
    ScramSha512 {
        /// The user: 1 or more characters from 0x20 to 0x7e.
        username: Text,
        /// The password: characters from 0x20 to 0x7e.
        password: Text,
        /// The salt: 1 to 64 bytes.
        salt: Binary,
        /// The iteration count: 1 to 10,000,000.
        iterations: u32,
        /// The listener's nonce: 1 or more characters from 0x21 to 0x7e other than the comma, new for each exchange.
        nonce: Text,
    },
}

// It is let go by a call, so that no caller sees its parts.
impl Drop for AcceptSasl {
    fn drop(self) {
        match self {
            AcceptSasl::Anonymous => {}
            AcceptSasl::Plain { username, password } => {
                drop(username);
                drop(password);
            }
            AcceptSasl::ScramSha1 {
                username,
                password,
                salt,
                iterations: _,
                nonce,
            }
            | AcceptSasl::ScramSha256 {
                username,
                password,
                salt,
                iterations: _,
                nonce,
            }
            | AcceptSasl::ScramSha512 {
                username,
                password,
                salt,
                iterations: _,
                nonce,
            } => {
                drop(username);
                drop(password);
                drop(salt);
                drop(nonce);
            }
        }
    }
}

/// The parts of an `AcceptSasl`, whatever its hash function.
#[derive(Clone, Copy)]
pub(crate) enum Accepting<'a> {
    Anonymous,
    Plain {
        username: &'a Text,
        password: &'a Text,
    },
    Scram {
        hash: ScramHash,
        username: &'a Text,
        password: &'a Text,
        salt: &'a Binary,
        iterations: u32,
        nonce: &'a Text,
    },
}

// The parts of one with SCRAM and this hash function.
fn scram_parts<'a>(
    hash: ScramHash,
    username: &'a Text,
    password: &'a Text,
    salt: &'a Binary,
    iterations: u32,
    nonce: &'a Text,
) -> Accepting<'a>
    ensures acceptor { acceptor_in result ≡ scram_acceptor hash username.now password.now salt.now iterations nonce.now }
    ensures admission { admission_in result ≡ scram hash username.now password.now salt.now iterations nonce.now }
{
    Accepting::Scram {
        hash,
        username,
        password,
        salt,
        iterations,
        nonce,
    }
}

impl AcceptSasl {
    /// SCRAM with this hash function.
    pub fn scram(
        hash: ScramHash,
        username: Text,
        password: Text,
        salt: Binary,
        iterations: u32,
        nonce: Text,
    ) -> Self
        ensures { result ≡ scram_acceptor hash username password salt iterations nonce }
    {
        match hash {
            ScramHash::Sha1 => AcceptSasl::ScramSha1 {
                username,
                password,
                salt,
                iterations,
                nonce,
            },
            ScramHash::Sha256 => AcceptSasl::ScramSha256 {
                username,
                password,
                salt,
                iterations,
                nonce,
            },
            ScramHash::Sha512 => AcceptSasl::ScramSha512 {
                username,
                password,
                salt,
                iterations,
                nonce,
            },
        }
    }

    // Takes it apart.
    pub(crate) fn parts(&self) -> Accepting<'_>
        ensures acceptor { acceptor_in result ≡ self.now }
        ensures admission { admission_in result ≡ admission_of self.now }
    {
        match self {
            AcceptSasl::Anonymous => Accepting::Anonymous,
            AcceptSasl::Plain { username, password } => Accepting::Plain { username, password },
            AcceptSasl::ScramSha1 {
                username,
                password,
                salt,
                iterations,
                nonce,
            } => scram_parts(Sha1, username, password, salt, *iterations, nonce),
            AcceptSasl::ScramSha256 {
                username,
                password,
                salt,
                iterations,
                nonce,
            } => scram_parts(Sha256, username, password, salt, *iterations, nonce),
            AcceptSasl::ScramSha512 {
                username,
                password,
                salt,
                iterations,
                nonce,
            } => scram_parts(Sha512, username, password, salt, *iterations, nonce),
        }
    }

    /// A copy; the one error is want of memory.
    pub fn try_clone(&self, alloc: Global) -> Result<Self, AllocError>
        ensures { IfOk result (λ a. a ≡ self.now) }
    {
        match self.parts() {
            Accepting::Anonymous => Ok(AcceptSasl::Anonymous),
            Accepting::Plain { username, password } => {
                let username = username.try_clone(alloc)?;
                let password = password.try_clone(alloc)?;
                Ok(AcceptSasl::Plain { username, password })
            }
            Accepting::Scram {
                hash,
                username,
                password,
                salt,
                iterations,
                nonce,
            } => {
                let username = username.try_clone(alloc)?;
                let password = password.try_clone(alloc)?;
                let salt = salt.try_clone(alloc)?;
                let nonce = nonce.try_clone(alloc)?;
                Ok(AcceptSasl::scram(hash, username, password, salt, iterations, nonce))
            }
        }
    }
}
