//! PBKDF2 over a pseudorandom function.
#![tactic(auto)]

ghost use Rattle.std.specs.Prelude.{◌≡◌, ℕ, ◌+◌, ◌-◌, ◌*◌, ◌^◌, ◌≤◌, ◌<◌, ◌↔◌, true, false, List, [], ◌∷◌, ◌++◌, length, take, IsOk, IfOk, OnOk, OnErr};
ghost use Rattle.std.specs.Int.{w32, to_be_bytes};
ghost use Rattle.kdf_core.specs.Hmac.{hmac_of};
ghost use Rattle.kdf_core.specs.Pbkdf2.{xor_of, u_of, t_of, block_of, pbkdf2_of};

use crate::error::InvalidLength;
use crate::hash::HashFn;
use crate::hmac::Hmac;
use crate::prf::Prf;

// Xors `other` into `bytes`.
fn xor_into(bytes: &mut [u8], other: &[u8])
    requires { length bytes.old ≡ length other.now }
    ensures { bytes.new ≡ xor_of bytes.old other.now }
{
    'bytes: for (i, byte) in bytes.iter_mut().enumerate() {
        *byte ^= other[i];
    }
}

// The function's output for the whole message `message`, into `out`.
fn mac_into<P: Prf>(prf: &P, message: &[u8], out: &mut [u8])
    requires fresh { (key : List ℕ) × P.holds prf.now key [] }
    requires size { length out.old ≡ P.OUTPUT }
    ensures { (key : List ℕ) → P.holds prf.now key [] → out.new ≡ P.mac key message.now }
{
    let mut state = prf.duplicate();
    state.update(message);
    state.finalize_into(out);
}

// The first U of the block with the number `index`.
fn first_of<P: Prf>(prf: &P, salt: &[u8], index: u32) -> [u8; 64]
    requires { (key : List ℕ) × P.holds prf.now key [] }
    ensures { (key : List ℕ) → P.holds prf.now key [] → take P.OUTPUT result ≡ P.mac key (salt.now ++ to_be_bytes w32 index) }
{
    let mut first = [0u8; 64];
    let mut state = prf.duplicate();
    state.update(salt);
    state.update(&index.to_be_bytes());
    state.finalize_into(&mut first[..P::OUTPUT]);
    first
}

// One round: the next U into `last`, xored into `total`.
fn round_into<P: Prf>(prf: &P, last: &mut [u8; 64], total: &mut [u8; 64])
    requires fresh { (key : List ℕ) × P.holds prf.now key [] }
    ensures last { (key : List ℕ) → P.holds prf.now key [] → take P.OUTPUT last.new ≡ P.mac key (take P.OUTPUT last.old) }
    ensures total { take P.OUTPUT total.new ≡ xor_of (take P.OUTPUT total.old) (take P.OUTPUT last.new) }
{
    let mut next = [0u8; 64];
    mac_into(prf, &last[..P::OUTPUT], &mut next[..P::OUTPUT]);
    xor_into(&mut total[..P::OUTPUT], &next[..P::OUTPUT]);
    *last = next;
}

// The first bytes of the block with the number `index`, into `out`.
fn block_into<P: Prf>(prf: &P, salt: &[u8], rounds: u32, index: u32, out: &mut [u8])
    requires fresh { (key : List ℕ) × P.holds prf.now key [] }
    requires size { length out.old ≤ P.OUTPUT }
    ensures { (key : List ℕ) → P.holds prf.now key [] → out.new ≡ take (length out.old) (block_of (P.mac key) salt.now rounds index) }
{
    let mut last = first_of(prf, salt, index);
    let mut total = last;
    'rounds: for round in 0..rounds.saturating_sub(1) {
        round_into(prf, &mut last, &mut total);
    }
    out.copy_from_slice(&total[..out.len()]);
}

// The key that PBKDF2 derives, into `out`.
fn blocks_into<P: Prf>(prf: &P, salt: &[u8], rounds: u32, out: &mut [u8])
    requires fresh { (key : List ℕ) × P.holds prf.now key [] }
    requires size { length out.old ≤ P.OUTPUT * u32.MAX }
    ensures { (key : List ℕ) → P.holds prf.now key [] → out.new ≡ pbkdf2_of (P.mac key) P.OUTPUT salt.now rounds (length out.old) }
{
    let total = out.len();
    let mut done = 0;
    let mut index: u32 = 0;
    'pieces: while done < total {
        let left = total - done;
        let size = left.min(P::OUTPUT);
        index += 1;
        block_into(prf, salt, rounds, index, &mut out[done..done + size]);
        done += size;
    }
}

/// Writes the key that PBKDF2 (RFC 8018, section 5.2) derives from a password and a salt into `res`.
///
/// The length of the key is that of `res`: at most 2^32 - 1 outputs of `P`. Rounds 0 count as 1. `InvalidLength` comes
/// exactly where `P` does not take the password as its key, and leaves `res` as it was.
#[tactic(auto, using(crate::proofs::Rounds::key_laws))]
pub fn pbkdf2<P: Prf>(
    password: &[u8],
    salt: &[u8],
    rounds: u32,
    res: &mut [u8],
) -> Result<(), InvalidLength>
    requires { length res.old ≤ P.OUTPUT * u32.MAX }
    ensures accepted { IsOk result ↔ (P.accepts password.now ≡ true) }
    ensures ok { OnOk result (res.new ≡ pbkdf2_of (P.mac password.now) P.OUTPUT salt.now rounds (length res.old)) }
    ensures err { OnErr result (res.new ≡ res.old) }

    // A shorter key is the front of a longer one, and no rounds are one round.
    ensures front { OnOk result ((len : ℕ) → len ≤ length res.old →
        take len res.new ≡ pbkdf2_of (P.mac password.now) P.OUTPUT salt.now rounds len) }
    ensures no_rounds { OnOk result (rounds ≡ 0 →
        res.new ≡ pbkdf2_of (P.mac password.now) P.OUTPUT salt.now 1 (length res.old)) }
{
    let prf = P::new_from_slice(password)?;
    blocks_into(&prf, salt, rounds, res);
    Ok(())
}

/// The key that `pbkdf2` derives, of `N` bytes.
pub fn pbkdf2_array<P: Prf, const N: usize>(
    password: &[u8],
    salt: &[u8],
    rounds: u32,
) -> Result<[u8; N], InvalidLength>
    requires { N ≤ P.OUTPUT * u32.MAX }
    ensures accepted { IsOk result ↔ (P.accepts password.now ≡ true) }
    ensures ok { IfOk result (λ key. key ≡ pbkdf2_of (P.mac password.now) P.OUTPUT salt.now rounds N) }
{
    let mut key = [0u8; N];
    pbkdf2::<P>(password, salt, rounds, &mut key)?;
    Ok(key)
}

/// Writes the key that PBKDF2 derives with HMAC (RFC 2104) over the hash function `D` into `res`.
///
/// The length of the key is that of `res`: at most 2^32 - 1 digests of `D`. Rounds 0 count as 1.
pub fn pbkdf2_hmac<D: HashFn>(password: &[u8], salt: &[u8], rounds: u32, res: &mut [u8])
    requires { length res.old ≤ D.OUTPUT * u32.MAX }
    ensures key { res.new ≡ pbkdf2_of (hmac_of D.digest D.BLOCK password.now) D.OUTPUT salt.now rounds (length res.old) }

    // A shorter key is the front of a longer one, and no rounds are one round.
    ensures front { (len : ℕ) → len ≤ length res.old →
        take len res.new ≡ pbkdf2_of (hmac_of D.digest D.BLOCK password.now) D.OUTPUT salt.now rounds len }
    ensures no_rounds { rounds ≡ 0 →
        res.new ≡ pbkdf2_of (hmac_of D.digest D.BLOCK password.now) D.OUTPUT salt.now 1 (length res.old) }
{
    match pbkdf2::<Hmac<D>>(password, salt, rounds, res) {
        Ok(()) => {}
        Err(InvalidLength) => unreachable!(),
    }
}

/// The key that `pbkdf2_hmac` derives, of `N` bytes.
pub fn pbkdf2_hmac_array<D: HashFn, const N: usize>(
    password: &[u8],
    salt: &[u8],
    rounds: u32,
) -> [u8; N]
    requires { N ≤ D.OUTPUT * u32.MAX }
    ensures { result ≡ pbkdf2_of (hmac_of D.digest D.BLOCK password.now) D.OUTPUT salt.now rounds N }
{
    let mut key = [0u8; N];
    pbkdf2_hmac::<D>(password, salt, rounds, &mut key);
    key
}
