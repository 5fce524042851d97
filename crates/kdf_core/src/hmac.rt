//! HMAC.
#![tactic(auto)]

ghost use Rattle.std.specs.Prelude.{◌≡◌, ℕ, ◌-◌, ◌≤◌, true, List, ◌++◌, length, take, replicate};
ghost use Rattle.kdf_core.specs.Hmac.{hmac_of, inner_pad, outer_pad, key_block, xor_byte};

use crate::error::InvalidLength;
use crate::hash::HashFn;
use crate::prf::Prf;

// The bytes of the inner and of the outer pad.
const INNER_PAD: u8 = 0x36;

const OUTER_PAD: u8 = 0x5c;

/// HMAC (RFC 2104, section 2) over the hash function `D`. It takes every key: one that is longer than a block of `D` is
/// hashed first.
#[derive(Drop)]
pub struct Hmac<D> {
    // The key with zeros after it; the first `D::BLOCK` bytes are its key block.
    block: [u8; 128],
    inner: D,
    outer: D,
}

// The key with zeros after it.
fn with_zeros(key: &[u8]) -> [u8; 128]
    requires { length key.now ≤ 128 }
    ensures { result ≡ key.now ++ replicate (128 - length key.now) 0 }
{
    let mut block = [0u8; 128];
    block[..key.len()].copy_from_slice(key);
    block
}

// The key, hashed where it is longer than a block, with zeros after it.
#[tactic(auto, using(crate::proofs::Blocks::zeros))]
fn padded_key<D: HashFn>(key: &[u8]) -> [u8; 128]
    ensures { take D.BLOCK result ≡ key_block D.digest D.BLOCK key.now }
{
    if D::BLOCK < key.len() {
        let mut digest = [0u8; 64];
        let mut hasher = D::new();
        hasher.update(key);
        let digest = &mut digest[..D::OUTPUT];
        hasher.finish(digest);
        with_zeros(digest)
    } else {
        with_zeros(key)
    }
}

// Each byte of the block xored with `byte`.
fn xored(block: &[u8; 128], byte: u8) -> [u8; 128]
    ensures { result ≡ xor_byte byte block.now }
{
    let mut out = *block;
    'bytes: for x in &mut out {
        *x ^= byte;
    }
    out
}

// A hasher that was fed the key block xored with `byte`.
fn started<D: HashFn>(block: &[u8; 128], byte: u8) -> D
    ensures { D.holds result (xor_byte byte (take D.BLOCK block.now)) }
{
    let pad = xored(block, byte);
    let mut hasher = D::new();
    hasher.update(&pad[..D::BLOCK]);
    hasher
}

// The state for a key block, given nothing.
fn keyed<D: HashFn>(block: [u8; 128]) -> Hmac<D>
    ensures block { result.block ≡ block }
    ensures inner { D.holds result.inner (xor_byte 0x36 (take D.BLOCK block)) }
    ensures outer { D.holds result.outer (xor_byte 0x5c (take D.BLOCK block)) }
{
    Hmac {
        inner: started(&block, INNER_PAD),
        outer: started(&block, OUTER_PAD),
        block,
    }
}

impl<D: HashFn> Prf for Hmac<D> {
    const OUTPUT: usize = D::OUTPUT;

    ghost OUTPUT = { D.OUTPUT };

    ghost accepts = { λ _. true };

    ghost mac = { λ key m. hmac_of D.digest D.BLOCK key m };

    ghost holds = { λ s key m. D.holds s.inner (inner_pad D.digest D.BLOCK key ++ m)
        × D.holds s.outer (outer_pad D.digest D.BLOCK key)
        × (take D.BLOCK s.block ≡ key_block D.digest D.BLOCK key) };

    fn new_from_slice(key: &[u8]) -> Result<Self, InvalidLength> {
        Ok(keyed(padded_key::<D>(key)))
    }

    /// Copies the states after the key blocks where `D` does, and else hashes the key blocks anew.
    fn duplicate(&self) -> Self {
        match (self.inner.duplicate(), self.outer.duplicate()) {
            (Some(inner), Some(outer)) => Hmac {
                block: self.block,
                inner,
                outer,
            },
            _ => keyed(self.block),
        }
    }

    fn update(&mut self, piece: &[u8]) {
        self.inner.update(piece);
    }

    fn finalize_into(self, out: &mut [u8]) {
        let Hmac {
            inner,
            mut outer,
            ..
        } = self;
        inner.finish(out);
        outer.update(out);
        outer.finish(out);
    }

    ghost mac_length = { λ key m. D.digest_length _ };

    ghost output_low = { D.output_low };

    ghost output_high = { D.output_high };
}
