//! The parameters of a password store.
#![tactic(auto)]

ghost use Rattle.std.specs.Prelude.{◌≡◌, ◌≤◌};

use crate::algorithm::Algorithm;
use crate::error::KdfError;
use std::fmt;
use std::str::FromStr;

/// The number of rounds, at least 1000, and the length of the output in bytes, from 10 to 64.
#[derive(Clone, Copy, Debug, PartialEq, Eq)]
pub struct Params {
    rounds: u32,
    output_len: usize,
    ghost enough_rounds: { 1000 ≤ rounds },
    ghost enough_output: { 10 ≤ output_len },
    ghost output_fits: { output_len ≤ 64 },
}

impl Params {
    ghost use Rattle.kdf_core.specs.Params.{rounds_of, output_len_of, recommended_rounds, IsParamsOf};

    /// The least length of an output in bytes.
    pub const MIN_OUTPUT_LENGTH: usize = 10;

    /// The greatest length of an output in bytes.
    pub const MAX_OUTPUT_LENGTH: usize = 64;

    /// The least number of rounds.
    pub const MIN_ROUNDS: u32 = 1000;

    /// The length of an output in bytes where none is given.
    pub const RECOMMENDED_OUTPUT_LENGTH: usize = 32;

    /// The rounds to take with SHA-256.
    pub const RECOMMENDED_ROUNDS: u32 = 600_000;

    /// The rounds to take with SHA-512.
    pub const RECOMMENDED_SHA512_ROUNDS: u32 = 210_000;

    /// The parameters to take with the recommended algorithm.
    pub const RECOMMENDED: Self = Params {
        rounds: Self::RECOMMENDED_ROUNDS,
        output_len: Self::RECOMMENDED_OUTPUT_LENGTH,
    };

    // The parameters to take with SHA-512.
    pub(crate) const RECOMMENDED_SHA512: Self = Params {
        rounds: Self::RECOMMENDED_SHA512_ROUNDS,
        output_len: Self::RECOMMENDED_OUTPUT_LENGTH,
    };

    /// The parameters to take with `algorithm`.
    pub fn recommended_for(algorithm: Algorithm) -> Self
        ensures rounds { rounds_of result ≡ recommended_rounds algorithm }
        ensures output_len { output_len_of result ≡ 32 }
    {
        match algorithm {
            Algorithm::Pbkdf2Sha256 => Self::RECOMMENDED,
            Algorithm::Pbkdf2Sha512 => Self::RECOMMENDED_SHA512,
        }
    }

    /// These rounds with an output of 32 bytes; `KdfError::ParamsInvalid` exactly where they are below 1000.
    pub fn new(rounds: u32) -> Result<Self, KdfError>
        ensures { IsParamsOf rounds 32 result }
    {
        Params::new_with_output_len(rounds, Self::RECOMMENDED_OUTPUT_LENGTH)
    }

    /// These rounds with an output of `output_len` bytes; `KdfError::ParamsInvalid` exactly where the rounds are below
    /// 1000 or the length is outside 10 to 64.
    pub fn new_with_output_len(rounds: u32, output_len: usize) -> Result<Self, KdfError>
        ensures { IsParamsOf rounds output_len result }
    {
        if rounds < Self::MIN_ROUNDS
            || output_len < Self::MIN_OUTPUT_LENGTH
            || output_len > Self::MAX_OUTPUT_LENGTH
        {
            return Err(KdfError::ParamsInvalid);
        }
        Ok(Params { rounds, output_len })
    }

    /// The number of rounds.
    pub fn rounds(self) -> u32
        ensures { result ≡ rounds_of self }
    {
        self.rounds
    }

    /// The length of the output in bytes.
    pub fn output_len(self) -> usize
        ensures { result ≡ output_len_of self }
    {
        self.output_len
    }
}

impl Default for Params {
    ghost use Rattle.kdf_core.specs.Params.{IsRecommended};

    ghost is_default = { IsRecommended };

    fn default() -> Self {
        Self::RECOMMENDED
    }
}

impl TryFrom<u32> for Params {
    ghost use Rattle.kdf_core.specs.Params.{IsParamsOf};

    type Error = KdfError;

    ghost try_from_gives = { λ rounds r. IsParamsOf rounds 32 r };

    fn try_from(rounds: u32) -> Result<Self, KdfError> {
        Params::new(rounds)
    }
}

impl FromStr for Params {
    ghost use Rattle.kdf_core.specs.Params.{IsParamsText};

    type Err = KdfError;

    ghost from_str_gives = { IsParamsText };

    /// An optional plus sign and a decimal number below 2^32, the rounds; `KdfError::EncodingInvalid` for any other text.
    fn from_str(text: &str) -> Result<Self, KdfError> {
        match text.parse::<u32>() {
            Ok(rounds) => Params::new(rounds),
            Err(_) => Err(KdfError::EncodingInvalid),
        }
    }
}

impl fmt::Display for Params {
    ghost use Rattle.std.specs.Prelude.{Some, decimal};
    ghost use Rattle.kdf_core.specs.Params.{rounds_of};

    ghost output = { λ params. Some (decimal (rounds_of params)) };

    fn fmt<W: fmt::Write>(&self, f: &mut fmt::Formatter<W>) -> fmt::Result {
        write!(f, "{}", self.rounds)
    }
}
