//! The listener's side of SCRAM (RFC 5802, section 5).

ghost use Rattle.std.specs.Prelude.{◌≡◌, ℕ, List, ◌≤◌, length, take, drop, IfOk, IfErr, OnOk, OnErr};
ghost use Rattle.sasl_scram.specs.declared.server.ServerPhase.{ServerPhase};
ghost use Rattle.sasl_scram.specs.declared.stored.StoredPassword.{StoredPassword};
ghost use Rattle.sasl_scram.specs.Check.{ServerAnswers, ServerCheck};
ghost use Rattle.sasl_scram.specs.Profile.{IsAllowedUser, IsNonce};
ghost use Rattle.sasl_scram.specs.Refusals.{IsNameRefusal, IsClientFirstRefusal, IsClientFinalRefusal};
ghost use Rattle.sasl_scram.specs.Parts.{IsProved};
ghost use Rattle.sasl_scram.specs.Texts.{escaped_of, IsHeader};
ghost use Rattle.sasl_scram.specs.States.{server_challenged, server_proved, ForChallenged};

use crate::encoding::decode_into;
use crate::error::ScramErrorKind;
use crate::escape::unescape;
use crate::keys::{hmac_into, proof_holds};
use crate::profile::is_allowed_user;
use crate::provider::ScramCredentialProvider;
use crate::stored::StoredPassword;
use crate::texts::{
    auth_message, read_client_final, read_client_first, server_final, server_first,
};
use amqp_text::{Binary, Text};
use kdf_core::HashFn;
use std::alloc::Global;
use std::marker::{Model, PhantomData};
use std::str;

/// What a listener read and answered.
#[derive(Debug, Drop)]
pub struct Challenge {
    /// The client first that was read.
    pub client_first: Binary,
    /// The user of the client first.
    pub user: Text,
    /// The whole nonce: that of the client first and then the own one.
    pub nonce: Binary,
    /// The server first that was answered.
    pub server_first: Binary,
}

/// How far a listener is.
#[derive(Debug, Drop)]
pub enum ServerPhase {
    /// No client first was taken.
    Unasked,
    /// A client first was taken and answered.
    Challenged(Challenge),
    /// The client final has a proof of the password.
    Proved,
}

/// The listener's side of SCRAM with the hash function `D` and the users of `P`.
///
/// `on_client_first` and `on_client_final` come in this order, each after an `Ok` of the one before. An `Err` leaves the
/// listener as it was: after `Memory` the call may be made again, and after another the exchange is over.
#[derive(Drop)]
pub struct ScramServer<D: HashFn, P: ScramCredentialProvider> {
    provider: P,
    nonce: Text,
    phase: ServerPhase,
    hash: PhantomData<D>,
}

impl<D: HashFn, P: ScramCredentialProvider> Model for ScramServer<D, P> {
    ghost use Rattle.sasl_scram.specs.States.{ServerState, ServerHolds};

    ghost Value = { ServerState P };

    ghost view = { λ s. record { provider = s.provider; nonce = s.nonce; phase = s.phase } };

    ghost invariant = { λ s. ServerHolds (P.stored s.provider) s.nonce s.phase };
}

impl<D: HashFn, P: ScramCredentialProvider> ScramServer<D, P> {
    /// A listener that has read nothing. `nonce` is to be new for each exchange; takes no memory.
    pub fn new(provider: P, nonce: Text) -> Self
        requires { IsNonce nonce }
        ensures { result ≡ record { provider = provider; nonce = nonce; phase = ServerPhase.Unasked } }
    {
        ScramServer {
            provider,
            nonce,
            phase: ServerPhase::Unasked,
            hash: PhantomData,
        }
    }

    // The challenge for a client first.
    fn challenge(&self, alloc: Global, text: &[u8]) -> Result<Challenge, ScramErrorKind>
        ensures ok { IfOk result (λ c. (c.client_first ≡ text.now) × ((keys : StoredPassword) × ServerAnswers
            (P.stored self.now.provider) self.now.nonce text.now c.user c.nonce c.server_first keys)) }
        ensures err { IfErr result (λ e. IsClientFirstRefusal (P.stored self.now.provider) text.now e) }
    {
        let Some(parts) = read_client_first(text) else {
            return Err(ScramErrorKind::Malformed);
        };
        let user = match read_user(alloc, parts.name) {
            Ok(user) => user,
            Err(error) => return Err(error),
        };
        let Some(keys) = self.provider.get(user.as_str()) else {
            return Err(ScramErrorKind::UserUnknown);
        };
        let mut nonce = Binary::from_slice(alloc, parts.nonce)?;
        nonce.append(self.nonce.as_bytes())?;
        Ok(Challenge {
            client_first: Binary::from_slice(alloc, text)?,
            server_first: server_first(
                alloc,
                nonce.as_slice(),
                keys.salt.as_slice(),
                keys.iterations,
            )?,
            user,
            nonce,
        })
    }

    /// Reads the client first, `n,,n=USER,r=NONCE` or the same with `y,,`, and gives the server first,
    /// `r=NONCE,s=SALT,i=COUNT`.
    pub fn on_client_first(&mut self, alloc: Global, text: &[u8]) -> Result<Binary, ScramErrorKind>
        requires { self.old.phase ≡ ServerPhase.Unasked }
        ensures ok { IfOk result (λ reply. (user : List ℕ) × (whole_nonce : List ℕ) × (keys : StoredPassword)
            × (self.new ≡ server_challenged self.old text.now user whole_nonce reply)
            × ServerAnswers (P.stored self.old.provider) self.old.nonce text.now user whole_nonce reply keys) }
        ensures err { IfErr result (λ e. IsClientFirstRefusal (P.stored self.old.provider) text.now e) }
        ensures same { OnErr result (self.new ≡ self.old) }
    {
        let challenge = self.challenge(alloc, text)?;
        let reply = challenge.server_first.try_clone(alloc)?;
        self.phase = ServerPhase::Challenged(challenge);
        Ok(reply)
    }

    /// Reads the client final, `c=biws,r=NONCE,p=PROOF` (`c=eSws` where the client first began with `y`), and gives the
    /// server final, `v=SIGNATURE`.
    pub fn on_client_final(&mut self, alloc: Global, text: &[u8]) -> Result<Binary, ScramErrorKind>
        requires { ForChallenged self.old.phase (λ _. Unit {0}) }
        ensures ok { OnOk result (self.new ≡ server_proved self.old) }
        ensures check { IfOk result (λ reply. ForChallenged self.old.phase (λ c. ServerCheck D.digest D.BLOCK D.OUTPUT
            (P.stored self.old.provider) self.old.nonce c.user c.client_first c.server_first text.now reply)) }
        ensures err { IfErr result (λ e. ForChallenged self.old.phase (λ c. (keys : StoredPassword)
            × (answers : ServerAnswers (P.stored self.old.provider) self.old.nonce c.client_first c.user c.nonce c.server_first keys)
            × IsClientFinalRefusal D.digest D.BLOCK D.OUTPUT keys.stored_key answers.header answers.bare c.server_first c.nonce text.now e)) }
        ensures same { OnErr result (self.new ≡ self.old) }
    {
        let ServerPhase::Challenged(challenge) = &self.phase else {
            unreachable!();
        };
        let Some(keys) = self.provider.get(challenge.user.as_str()) else {
            unreachable!();
        };
        let reply = match server_final_for::<D>(alloc, challenge, keys, text) {
            Ok(reply) => reply,
            Err(error) => return Err(error),
        };
        self.phase = ServerPhase::Proved;
        Ok(reply)
    }
}

// The user whose name is written so, which is to be in the profile.
fn read_user(alloc: Global, name: &[u8]) -> Result<Text, ScramErrorKind>
    ensures ok { IfOk result (λ user. (name.now ≡ escaped_of user) × IsAllowedUser user) }
    ensures err { IfErr result (λ e. IsNameRefusal name.now e) }
{
    if name.is_empty() {
        return Err(ScramErrorKind::Malformed);
    }
    let Some(user) = unescape(alloc, name)? else {
        return Err(ScramErrorKind::Malformed);
    };
    match str::from_utf8(&user) {
        Ok(text) if is_allowed_user(text.as_bytes()) => {
            let user = Text::from_str(alloc, text)?;
            Ok(user)
        }
        _ => Err(ScramErrorKind::TextNotAllowed),
    }
}

// The server final for a client final.
fn server_final_for<D: HashFn>(
    alloc: Global,
    challenge: &Challenge,
    keys: &StoredPassword,
    text: &[u8],
) -> Result<Binary, ScramErrorKind>
    requires long { 3 ≤ length challenge.now.client_first }
    requires header { IsHeader (take 3 challenge.now.client_first) }
    ensures ok { IfOk result (λ reply. IsProved D.digest D.BLOCK D.OUTPUT keys.now.stored_key keys.now.server_key
        (take 3 challenge.now.client_first) (drop 3 challenge.now.client_first) challenge.now.server_first challenge.now.nonce text.now reply) }
    ensures err { IfErr result (λ e. IsClientFinalRefusal D.digest D.BLOCK D.OUTPUT keys.now.stored_key
        (take 3 challenge.now.client_first) (drop 3 challenge.now.client_first) challenge.now.server_first challenge.now.nonce text.now e) }
{
    let (header, bare) = challenge.client_first.as_slice().split_at(3);
    let Some(parts) = read_client_final(header, text) else {
        return Err(ScramErrorKind::Malformed);
    };
    if parts.nonce != challenge.nonce.as_slice() {
        return Err(ScramErrorKind::NonceMismatch);
    }
    let mut proof = [0u8; 64];
    let proof = &mut proof[..D::OUTPUT];
    if !decode_into(parts.proof, proof) {
        return Err(ScramErrorKind::Base64);
    }
    let auth = auth_message(alloc, bare, challenge.server_first.as_slice(), parts.bare)?;
    if !proof_holds::<D>(keys.stored_key.as_slice(), auth.as_slice(), proof) {
        return Err(ScramErrorKind::ProofMismatch);
    }
    let mut signature = [0u8; 64];
    let signature = &mut signature[..D::OUTPUT];
    hmac_into::<D>(keys.server_key.as_slice(), auth.as_slice(), signature);
    let text = server_final(alloc, signature)?;
    Ok(text)
}
