//! What the program is asked for.
ghost use Rattle.std.specs.Prelude.{◌≡◌, Some, None, MatchOption, codes};
ghost use Rattle.amqp_requests.specs.Request.{key_in, request_in, request_of};

use crate::key::{HashName, KeyRequest};
use amqp_script::script::number::number;
use amqp_script::script::words::is_text;
use amqp_text::Text;

/// What the program is asked for.
#[derive(Clone, Copy, Debug)]
pub enum Command<'a> {
    /// `world`: to run a script.
    World,
    /// `kdf`: to derive a key.
    Kdf(KeyRequest<'a>),
}

const MOST_ROUNDS: u64 = 4_294_967_295;

const LONGEST_KEY: u64 = 4096;

/// The key that `kdf HASH ROUNDS LENGTH PASSWORD SALT` asks for.
fn key_request<'a>(
    hash: &[u8],
    rounds: &[u8],
    length: &[u8],
    password: &'a [u8],
    salt: &'a [u8],
) -> Option<Command<'a>>
    ensures { let asked = key_in (codes "kdf") hash.now rounds.now length.now password.now salt.now in
        MatchOption result (asked ≡ None) (λ c. asked ≡ Some (request_of c)) }
{
    let hash = HashName::read(hash)?;
    let rounds = number(MOST_ROUNDS, rounds)?;
    let length = number(LONGEST_KEY, length)?;
    Some(Command::Kdf(KeyRequest {
        hash,
        rounds: rounds as u32,
        length: length as u16,
        password,
        salt,
    }))
}

/// What these words ask for, if they are a command.
pub fn read_command(words: &[Text]) -> Option<Command<'_>>
    ensures { MatchOption result (request_in words.now ≡ None)
        (λ c. request_in words.now ≡ Some (request_of c)) }
{
    if let [word] = words {
        if is_text(word.as_bytes(), b"world") {
            return Some(Command::World);
        }
        return None;
    }
    let [word, hash, rounds, length, password, salt] = words else {
        return None;
    };
    if !is_text(word.as_bytes(), b"kdf") {
        return None;
    }
    key_request(
        hash.as_bytes(),
        rounds.as_bytes(),
        length.as_bytes(),
        password.as_bytes(),
        salt.as_bytes(),
    )
}
