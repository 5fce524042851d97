//! What a listener keeps of a password.

ghost use Rattle.std.specs.Prelude.{◌≡◌, ◌≤◌, length, IfOk, IfErr};
ghost use Rattle.sasl_scram.specs.Hashes.{digest_of, block_of, output_of};
ghost use Rattle.sasl_scram.specs.Keys.{salted_of, server_key_of, stored_key_of};
ghost use Rattle.sasl_scram.specs.Profile.{IsAllowedCount, IsAllowedPassword};
ghost use Rattle.sasl_scram.specs.Refusals.{IsTextRefusal};

use crate::error::ScramErrorKind;
use crate::hash::ScramHash;
use crate::keys::{salted_into, server_key_into, stored_key_into};
use crate::profile::is_allowed_password;
use amqp_text::Binary;
use kdf_core::{HashFn, Sha1Fn, Sha256Fn, Sha512Fn};
use std::alloc::Global;

/// What a listener keeps of a password (RFC 5802, section 3): it can check who knows the password, and not tell it.
#[derive(Debug, Drop)]
pub struct StoredPassword {
    /// `StoredKey`: the hash of the client key.
    pub stored_key: Binary,
    /// `ServerKey`, under which the listener signs.
    pub server_key: Binary,
    /// The salt.
    pub salt: Binary,
    /// The iteration count.
    pub iterations: u32,
}

impl StoredPassword {
    ghost use Rattle.sasl_scram.specs.Check.{stored_of};

    /// What a listener with the hash function `D` keeps of `password`, with a salt of 1 to 64 bytes and 1 to 10,000,000
    /// iterations. `TextNotAllowed` comes exactly where the password is outside the profile; the other error is want of
    /// memory.
    pub fn derive<D: HashFn>(
        alloc: Global,
        password: &str,
        salt: &[u8],
        iterations: u32,
    ) -> Result<Self, ScramErrorKind>
        requires salt { (1 ≤ length salt.now) × (length salt.now ≤ 64) }
        requires iterations { IsAllowedCount iterations }
        ensures ok { IfOk result (λ p. p ≡ stored_of D.digest D.BLOCK D.OUTPUT password.now salt.now iterations) }
        ensures allowed { IfOk result (λ _. IsAllowedPassword password.now) }
        ensures err { IfErr result (λ e. IsTextRefusal (IsAllowedPassword password.now) e) }
    {
        if !is_allowed_password(password.as_bytes()) {
            return Err(ScramErrorKind::TextNotAllowed);
        }
        let mut salted = [0u8; 64];
        let mut stored_key = [0u8; 64];
        let mut server_key = [0u8; 64];
        let salted = &mut salted[..D::OUTPUT];
        let stored_key = &mut stored_key[..D::OUTPUT];
        let server_key = &mut server_key[..D::OUTPUT];
        salted_into::<D>(password.as_bytes(), salt, iterations, salted);
        stored_key_into::<D>(salted, stored_key);
        server_key_into::<D>(salted, server_key);
        Ok(StoredPassword {
            stored_key: Binary::from_slice(alloc, stored_key)?,
            server_key: Binary::from_slice(alloc, server_key)?,
            salt: Binary::from_slice(alloc, salt)?,
            iterations,
        })
    }

    /// The same with a hash function that is data.
    pub fn derive_for(
        alloc: Global,
        hash: ScramHash,
        password: &str,
        salt: &[u8],
        iterations: u32,
    ) -> Result<Self, ScramErrorKind>
        requires salt { (1 ≤ length salt.now) × (length salt.now ≤ 64) }
        requires iterations { IsAllowedCount iterations }
        ensures ok { IfOk result (λ p. p ≡ stored_of (digest_of hash) (block_of hash) (output_of hash) password.now salt.now iterations) }
        ensures allowed { IfOk result (λ _. IsAllowedPassword password.now) }
        ensures err { IfErr result (λ e. IsTextRefusal (IsAllowedPassword password.now) e) }
    {
        match hash {
            ScramHash::Sha1 => Self::derive::<Sha1Fn>(alloc, password, salt, iterations),
            ScramHash::Sha256 => Self::derive::<Sha256Fn>(alloc, password, salt, iterations),
            ScramHash::Sha512 => Self::derive::<Sha512Fn>(alloc, password, salt, iterations),
        }
    }
}
