//! The keys and checks of SCRAM (RFC 5802, section 3) over a hash function.

ghost use Rattle.std.specs.Prelude.{◌≡◌, ◌≤◌, ◌↔◌, length, IsTrue, codes};
ghost use Rattle.kdf_core.specs.Hmac.{hmac_of};
ghost use Rattle.kdf_core.specs.Pbkdf2.{xor_of};
ghost use Rattle.sasl_scram.specs.Keys.{salted_of, client_key_of, server_key_of, stored_key_of, proof_of, ProofHolds};

use kdf_core::{HashFn, Hmac, Prf, pbkdf2_hmac};

// Xors `other` into `bytes`.
fn xor_into(bytes: &mut [u8], other: &[u8])
    requires { length bytes.old ≡ length other.now }
    ensures { bytes.new ≡ xor_of bytes.old other.now }
{
    'bytes: for (i, byte) in bytes.iter_mut().enumerate() {
        *byte ^= other[i];
    }
}

/// HMAC of a whole message, into `out` of `D::OUTPUT` bytes.
pub fn hmac_into<D: HashFn>(key: &[u8], message: &[u8], out: &mut [u8])
    requires { length out.old ≡ D.OUTPUT }
    ensures { out.new ≡ hmac_of D.digest D.BLOCK key.now message.now }
{
    match Hmac::<D>::new_from_slice(key) {
        Ok(mut state) => {
            state.update(message);
            state.finalize_into(out);
        }
        Err(_) => unreachable!(),
    }
}

/// The hash of a whole message, into `out` of `D::OUTPUT` bytes.
pub fn hash_into<D: HashFn>(message: &[u8], out: &mut [u8])
    requires { length out.old ≡ D.OUTPUT }
    ensures { out.new ≡ D.digest message.now }
{
    let mut state = D::new();
    state.update(message);
    state.finish(out);
}

/// The salted password (`SaltedPassword`), into `out` of `D::OUTPUT` bytes.
pub fn salted_into<D: HashFn>(password: &[u8], salt: &[u8], count: u32, out: &mut [u8])
    requires { length out.old ≡ D.OUTPUT }
    ensures { out.new ≡ salted_of D.digest D.BLOCK D.OUTPUT password.now salt.now count }
{
    pbkdf2_hmac::<D>(password, salt, count, out);
}

/// The stored key (`StoredKey`) of a salted password, into `out` of `D::OUTPUT` bytes.
pub fn stored_key_into<D: HashFn>(salted: &[u8], out: &mut [u8])
    requires { length out.old ≡ D.OUTPUT }
    ensures { out.new ≡ stored_key_of D.digest D.BLOCK salted.now }
{
    let mut client_key = [0u8; 64];
    let client_key = &mut client_key[..D::OUTPUT];
    hmac_into::<D>(salted, b"Client Key", client_key);
    hash_into::<D>(client_key, out);
}

/// The server key (`ServerKey`) of a salted password, into `out` of `D::OUTPUT` bytes.
pub fn server_key_into<D: HashFn>(salted: &[u8], out: &mut [u8])
    requires { length out.old ≡ D.OUTPUT }
    ensures { out.new ≡ server_key_of D.digest D.BLOCK salted.now }
{
    hmac_into::<D>(salted, b"Server Key", out);
}

/// The proof that a client sends (`ClientProof`), from the salted password and what both ends sign, into `out` of
/// `D::OUTPUT` bytes.
pub fn proof_into<D: HashFn>(salted: &[u8], auth: &[u8], out: &mut [u8])
    requires { length out.old ≡ D.OUTPUT }
    ensures { out.new ≡ proof_of D.digest D.BLOCK salted.now auth.now }
{
    let mut stored = [0u8; 64];
    let mut signature = [0u8; 64];
    let size = out.len();
    hmac_into::<D>(salted, b"Client Key", out);
    stored_key_into::<D>(salted, &mut stored[..size]);
    hmac_into::<D>(&stored[..size], auth, &mut signature[..size]);
    xor_into(out, &signature[..size]);
}

/// The signature that a server sends (`ServerSignature`), from the salted password and what both ends sign, into `out`
/// of `D::OUTPUT` bytes.
pub fn signature_into<D: HashFn>(salted: &[u8], auth: &[u8], out: &mut [u8])
    requires { length out.old ≡ D.OUTPUT }
    ensures { out.new ≡ hmac_of D.digest D.BLOCK (server_key_of D.digest D.BLOCK salted.now) auth.now }
{
    let mut key = [0u8; 64];
    let size = out.len();
    server_key_into::<D>(salted, &mut key[..size]);
    hmac_into::<D>(&key[..size], auth, out);
}

// The hash of the client key that a proof shows.
fn shown_into<D: HashFn>(stored_key: &[u8], auth: &[u8], proof: &[u8], out: &mut [u8])
    requires proof { length proof.now ≡ D.OUTPUT }
    requires out { length out.old ≡ D.OUTPUT }
    ensures { out.new ≡ D.digest (xor_of proof.now (hmac_of D.digest D.BLOCK stored_key.now auth.now)) }
{
    let mut key = [0u8; 64];
    let size = proof.len();
    let key = &mut key[..size];
    key.copy_from_slice(proof);
    hmac_into::<D>(stored_key, auth, out);
    xor_into(key, out);
    hash_into::<D>(key, out);
}

/// Whether a proof that was read, of `D::OUTPUT` bytes, shows the stored key.
pub fn proof_holds<D: HashFn>(stored_key: &[u8], auth: &[u8], proof: &[u8]) -> bool
    requires { length proof.now ≡ D.OUTPUT }
    ensures { IsTrue result ↔ ProofHolds D.digest D.BLOCK stored_key.now auth.now proof.now }
{
    let mut shown = [0u8; 64];
    let shown = &mut shown[..D::OUTPUT];
    shown_into::<D>(stored_key, auth, proof, shown);
    let shown: &[u8] = shown;
    shown == stored_key
}
