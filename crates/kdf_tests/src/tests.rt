//! Hash functions and pseudorandom functions of a user's own, arrays, parameters and algorithms.
ghost use Rattle.std.specs.Prelude.{◌≡◌, ℕ, ◌≤◌, List, length, not, nat_lt, IfSome};
ghost use Rattle.std.proofs.Common.{rules};
ghost use Rattle.kdf_core.specs.Hmac.{hmac_of};
ghost use Rattle.kdf_core.specs.Lengths.{length-sha256};
ghost use Rattle.sha2.specs.Hashers.{Holds256};
ghost use Rattle.sha2.specs.Sha256.{sha256};

use kdf_core::{
    Algorithm, HashFn, Hmac, InvalidLength, KdfError, Params, Pbkdf2, Prf, Sha1Fn, Sha256Fn,
    pbkdf2, pbkdf2_array, pbkdf2_hmac, pbkdf2_hmac_array, pbkdf2_hmac_with_params,
};
use sha2::{Digest, Sha256};
use std::convert::AsStr;
use std::test::Fail;

// SHA-256 by an implementor who writes the three calls alone.
#[derive(Drop)]
struct ThreeCalls {
    hasher: Sha256,
}

impl HashFn for ThreeCalls {
    const OUTPUT: usize = 32;

    const BLOCK: usize = 64;

    ghost OUTPUT = { 32 };

    ghost BLOCK = { 64 };

    ghost digest = { sha256 };

    ghost holds = { λ s m. Holds256 s.hasher m };

    fn new() -> Self {
        ThreeCalls {
            hasher: Sha256::new(),
        }
    }

    fn update(&mut self, piece: &[u8]) {
        self.hasher.update(piece);
    }

    fn finish(self, out: &mut [u8]) {
        out.copy_from_slice(&self.hasher.finalize());
    }

    ghost digest_length = { length-sha256 };

    ghost output_low = { Prim.search rules };

    ghost output_high = { Prim.search rules };

    ghost block_low = { Prim.search rules };

    ghost block_high = { Prim.search rules };
}

// HMAC-SHA-256 under keys of at most eight bytes.
#[derive(Drop)]
struct ShortKeys {
    state: Hmac<Sha256Fn>,
}

impl Prf for ShortKeys {
    const OUTPUT: usize = 32;

    ghost OUTPUT = { 32 };

    ghost accepts = { λ key. not (nat_lt 8 (length key)) };

    ghost mac = { λ key m. hmac_of sha256 64 key m };

    ghost holds = { λ s key m. ⟦<Hmac<Sha256Fn> as Prf>⟧.holds s.state key m };

    fn new_from_slice(key: &[u8]) -> Result<Self, InvalidLength> {
        if 8 < key.len() {
            return Err(InvalidLength);
        }
        match Hmac::new_from_slice(key) {
            Ok(state) => Ok(ShortKeys { state }),
            Err(InvalidLength) => unreachable!(),
        }
    }

    fn duplicate(&self) -> Self {
        ShortKeys {
            state: self.state.duplicate(),
        }
    }

    fn update(&mut self, piece: &[u8]) {
        self.state.update(piece);
    }

    fn finalize_into(self, out: &mut [u8]) {
        self.state.finalize_into(out);
    }

    ghost mac_length = { λ key m. length-sha256 _ };

    ghost output_low = { Prim.search rules };

    ghost output_high = { Prim.search rules };
}

// From OpenSSL: two blocks of SHA-256, by PBKDF2.
#[test]
fn key_of_three_calls(rt: HostRuntime) {
    let want: &[u8] =
        b"\x34\x8c\x89\xdb\xcb\xd3\x2b\x2f\x32\xd8\x14\xb8\x11\x6e\x84\xcf\x2b\x17\x34\x7e\xbc\x18\x00\x18\x1c\x4e\x2a\x1f\xb8\xdd\x53\xe1\xc6\x35\x51\x8c\x7d\xac\x47\xe9";
    let mut key = [0u8; 40];
    pbkdf2_hmac::<ThreeCalls>(
        b"passwordPASSWORDpassword",
        b"saltSALTsaltSALTsaltSALTsaltSALTsalt",
        4096,
        &mut key,
    );
    assert_eq!(rt; key.as_slice(), want);
}

// RFC 7914, section 11.
#[test]
fn key_of_80000_rounds(rt: HostRuntime) {
    let want: &[u8] =
        b"\x4d\xdc\xd8\xf6\x0b\x98\xbe\x21\x83\x0c\xee\x5e\xf2\x27\x01\xf9\x64\x1a\x44\x18\xd0\x4c\x04\x14\xae\xff\x08\x87\x6b\x34\xab\x56\xa1\xd4\x25\xa1\x22\x58\x33\x54\x9a\xdb\x84\x1b\x51\xc9\xb3\x17\x6a\x27\x2b\xde\xbb\xa1\xd0\x78\x47\x8f\x62\xb3\x97\xf3\x3c\x8d";
    let mut key = [0u8; 64];
    pbkdf2_hmac::<Sha256Fn>(b"Password", b"NaCl", 80000, &mut key);
    assert_eq!(rt; key.as_slice(), want);
}

// RFC 4231, section 4.7: a key that is longer than a block.
#[test]
fn mac_of_three_calls(rt: HostRuntime) -> Result<(), Fail> {
    let want: &[u8] =
        b"\x60\xe4\x31\x59\x1e\xe0\xb6\x7f\x0d\x8a\x26\xaa\xcb\xf5\xb7\x7f\x8e\x0b\xc6\x21\x37\x28\xc5\x14\x05\x46\x04\x0f\x0e\xe3\x7f\x54";
    let mut mac = [0u8; 32];
    let mut state = Hmac::<ThreeCalls>::new_from_slice(&[0xaa; 131])?;
    state.update(b"Test Using Larger Than Block-Size Key - Hash Key First");
    state.finalize_into(&mut mac);
    assert_eq!(rt; mac.as_slice(), want);
    Ok(())
}

// No rounds are one round, and a key of no bytes is empty.
#[test]
fn arrays(rt: HostRuntime) -> Result<(), Fail> {
    let want: &[u8] =
        b"\x0c\x60\xc8\x0f\x96\x1f\x0e\x71\xf3\xa9\xb5\x24\xaf\x60\x12\x06\x2f\xe0\x37\xa6";
    for rounds in [0, 1] {
        let key: [u8; 20] = pbkdf2_hmac_array::<Sha1Fn, 20>(b"password", b"salt", rounds);
        assert_eq!(rt; key.as_slice(), want);
        let key: [u8; 20] = pbkdf2_array::<Hmac<Sha1Fn>, 20>(b"password", b"salt", rounds)?;
        assert_eq!(rt; key.as_slice(), want);
    }
    let empty: [u8; 0] = pbkdf2_hmac_array::<Sha1Fn, 0>(b"password", b"salt", 1);
    assert_eq!(rt; empty.len(), 0);
    Ok(())
}

#[test]
fn refused_key(rt: HostRuntime) -> Result<(), Fail> {
    let mut key = [7u8; 20];
    assert_eq!(rt;
        pbkdf2::<ShortKeys>(b"password9", b"salt", 2, &mut key),
        Err(InvalidLength)
    );
    assert!(rt; key == [7u8; 20]);
    assert_eq!(rt;
        pbkdf2::<ShortKeys>(b"password9", b"salt", 2, &mut []),
        Err(InvalidLength)
    );
    assert!(rt; pbkdf2_array::<ShortKeys, 20>(b"password9", b"salt", 2).is_err());
    pbkdf2::<ShortKeys>(b"password", b"salt", 2, &mut key)?;
    let want: &[u8] =
        b"\xae\x4d\x0c\x95\xaf\x6b\x46\xd3\x2d\x0a\xdf\xf9\x28\xf0\x6d\xd0\x2a\x30\x3f\x8e";
    assert_eq!(rt; key.as_slice(), want);
    Ok(())
}

#[test]
fn params(rt: HostRuntime) -> Result<(), Fail> {
    for (rounds, output_len) in [(999, 32), (1000, 9), (1000, 65)] {
        let refused = Params::new_with_output_len(rounds, output_len);
        assert_eq!(rt;
            refused,
            Err(KdfError::ParamsInvalid),
            "at {rounds}, {output_len}"
        );
    }
    for (rounds, output_len) in [(1000, 10), (1000, 64)] {
        let params = Params::new_with_output_len(rounds, output_len)?;
        assert_eq!(rt; params.rounds(), rounds);
        assert_eq!(rt; params.output_len(), output_len);
    }
    assert_eq!(rt; "+1000".parse::<Params>()?, Params::new(1000)?);
    assert_eq!(rt; Params::try_from(1000)?.output_len(), 32);
    assert_eq!(rt; "999".parse::<Params>(), Err(KdfError::ParamsInvalid));
    for text in ["x", "", "+", "-1000", "4294967296"] {
        assert_eq!(rt;
            text.parse::<Params>(),
            Err(KdfError::EncodingInvalid),
            "at {text}"
        );
    }
    assert_eq!(rt;
        format!(in rt.alloc(); "{}", Params::default())?.as_str(),
        "600000"
    );
    Ok(())
}

#[test]
fn algorithms(rt: HostRuntime) -> Result<(), Fail> {
    for algorithm in [Algorithm::Pbkdf2Sha256, Algorithm::Pbkdf2Sha512] {
        assert_eq!(rt; Algorithm::new(algorithm.as_str())?, algorithm);
        assert_eq!(rt; algorithm.to_str().parse::<Algorithm>()?, algorithm);
        assert_eq!(rt; Algorithm::try_from(algorithm.to_str())?, algorithm);
        let text = format!(in rt.alloc(); "{algorithm}")?;
        assert_eq!(rt; text.as_str(), algorithm.to_str());
    }
    assert_eq!(rt; Algorithm::Pbkdf2Sha512.to_str(), "pbkdf2-sha512");
    assert_eq!(rt; Algorithm::new("pbkdf2-sha1"), Err(KdfError::Algorithm));
    assert_eq!(rt; Algorithm::default(), Algorithm::Pbkdf2Sha256);
    assert!(rt; Algorithm::Pbkdf2Sha256 < Algorithm::Pbkdf2Sha512);
    Ok(())
}

#[test]
fn by_algorithm(rt: HostRuntime) -> Result<(), Fail> {
    let params = Params::new(1000)?;
    let small: &[u8] = b"\x63\x2c\x28\x12\xe4\x6d\x46\x04\x10\x2b\xa7\x61\x8e\x9d\x6d\x7d";
    let large: &[u8] = b"\xaf\xe6\xc5\x53\x07\x85\xb6\xcc\x6b\x1c\x64\x53\x38\x47\x31\xbd";
    for (algorithm, want) in [
        (Algorithm::Pbkdf2Sha256, small),
        (Algorithm::Pbkdf2Sha512, large),
    ] {
        let mut key = [0u8; 16];
        pbkdf2_hmac_with_params(b"password", b"salt", algorithm, params, &mut key);
        assert_eq!(rt; key.as_slice(), want);
        let mut key = [0u8; 16];
        Pbkdf2::new(algorithm, params).hash_password_into(b"password", b"salt", &mut key);
        assert_eq!(rt; key.as_slice(), want);
        let recommended = Pbkdf2::from(algorithm);
        assert_eq!(rt; recommended.params, Params::recommended_for(algorithm));
    }
    assert_eq!(rt; Pbkdf2::default(), Pbkdf2::SHA256);
    assert_eq!(rt; Pbkdf2::from(params).algorithm, Algorithm::RECOMMENDED);
    assert_eq!(rt; Pbkdf2::SHA512.params.rounds(), 210_000);
    Ok(())
}
