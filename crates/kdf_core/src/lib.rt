//! Keys from passwords: PBKDF2 (RFC 8018, section 5.2) over HMAC (RFC 2104), with the hash function and the
//! pseudorandom function as traits. No call takes memory.
#![tactic(auto)]

pub use algorithm::Algorithm;
pub use derivation::{pbkdf2, pbkdf2_array, pbkdf2_hmac, pbkdf2_hmac_array};
pub use error::{InvalidLength, KdfError};
pub use hash::{HashFn, Sha1Fn, Sha256Fn, Sha512Fn};
pub use hmac::Hmac;
pub use params::Params;
pub use password::{Pbkdf2, pbkdf2_hmac_with_params};
pub use prf::Prf;

pub mod algorithm;
pub mod derivation;
pub mod error;
pub mod hash;
pub mod hmac;
pub mod params;
pub mod password;
pub mod prf;
