//! The client's side of SCRAM (RFC 5802, section 5).

ghost use Rattle.std.specs.Prelude.{◌≡◌, ℕ, List, length, IfOk, IfErr, OnOk, OnErr};
ghost use Rattle.sasl_scram.specs.declared.client.ClientPhase.{ClientPhase};
ghost use Rattle.sasl_scram.specs.declared.error.ScramErrorKind.{ScramErrorKind};
ghost use Rattle.sasl_scram.specs.declared.error.ScramErrorKind.TheVariants.{TextNotAllowed};
ghost use Rattle.sasl_scram.specs.Check.{ClientAnswers, ClientCheck};
ghost use Rattle.sasl_scram.specs.Profile.{IsAllowedUser, IsAllowedPassword, IsNonce};
ghost use Rattle.sasl_scram.specs.Refusals.{IsServerFirstRefusal, IsServerFinalRefusal};
ghost use Rattle.sasl_scram.specs.States.{client_answered, client_verified, ForAnswered};
ghost use Rattle.base64.specs.Engines.{standard};
ghost use Rattle.base64.specs.GeneralPurpose.{encode_of};
ghost use Rattle.sasl_scram.specs.Texts.{client_first_of, IsServerFinal};

use crate::count::read_count;
use crate::encoding::{decode, decode_into};
use crate::error::ScramErrorKind;
use crate::keys::{proof_into, salted_into, signature_into};
use crate::profile::{is_allowed_password, is_allowed_user};
use crate::texts::{
    auth_message, client_final, client_final_bare, client_first, client_first_bare, extends,
    read_server_final, read_server_first,
};
use amqp_text::{Binary, Text};
use kdf_core::HashFn;
use std::alloc::Global;
use std::marker::{Model, PhantomData};

/// What a client read and answered, and what it waits for.
#[derive(Debug, Drop)]
pub struct ClientAnswer {
    /// The server first that was read.
    pub server_first: Binary,
    /// The client final that was answered.
    pub client_final: Binary,
    /// The signature that the server final is to have.
    pub signature: Binary,
}

/// How far a client is.
#[derive(Debug, Drop)]
pub enum ClientPhase {
    /// No server first was taken.
    Unanswered,
    /// A server first was taken and answered.
    Answered(ClientAnswer),
    /// The server final has the signature that belongs to the password.
    Verified,
}

/// The client's side of SCRAM with the hash function `D`.
///
/// `on_server_first` and `on_server_final` come in this order, each after an `Ok` of the one before. An `Err` leaves the
/// client as it was: after `Memory` the call may be made again, and after another the exchange is over.
#[derive(Drop)]
pub struct ScramClient<D: HashFn> {
    user: Text,
    password: Text,
    nonce: Text,
    phase: ClientPhase,
    hash: PhantomData<D>,
}

impl<D: HashFn> Model for ScramClient<D> {
    ghost use Rattle.sasl_scram.specs.States.{ClientState, ClientHolds};

    ghost Value = { ClientState };

    ghost view = { λ c. record { user = c.user; password = c.password; nonce = c.nonce; phase = c.phase } };

    ghost invariant = { λ c. ClientHolds D.digest D.BLOCK D.OUTPUT c.user c.password c.nonce c.phase };
}

impl<D: HashFn> ScramClient<D> {
    /// A client that has read nothing. `nonce` is to be new for each exchange. `TextNotAllowed` comes exactly where user
    /// or password is outside the profile; takes no memory.
    pub fn new(user: Text, password: Text, nonce: Text) -> Result<Self, ScramErrorKind>
        requires { IsNonce nonce }
        ensures ok { IfOk result (λ c. c ≡ record { user = user; password = password; nonce = nonce; phase = ClientPhase.Unanswered }) }
        ensures allowed { OnOk result (IsAllowedUser user × IsAllowedPassword password) }
        ensures err { IfErr result (λ e. (e ≡ TextNotAllowed) × (¬ (IsAllowedUser user × IsAllowedPassword password))) }
    {
        if !is_allowed_user(user.as_bytes()) || !is_allowed_password(password.as_bytes()) {
            return Err(ScramErrorKind::TextNotAllowed);
        }
        Ok(ScramClient {
            user,
            password,
            nonce,
            phase: ClientPhase::Unanswered,
            hash: PhantomData,
        })
    }

    /// The client first, `n,,n=USER,r=NONCE`; the one error is `Memory`.
    pub fn first(&self, alloc: Global) -> Result<Binary, ScramErrorKind>
        ensures { IfOk result (λ text. text ≡ client_first_of self.now.user self.now.nonce) }
    {
        let text = client_first(alloc, self.user.as_bytes(), self.nonce.as_bytes())?;
        Ok(text)
    }

    // The answer to a server first.
    fn answer(&self, alloc: Global, text: &[u8]) -> Result<ClientAnswer, ScramErrorKind>
        ensures ok { IfOk result (λ a. (a.server_first ≡ text.now) × ClientAnswers D.digest D.BLOCK D.OUTPUT
            self.now.user self.now.password self.now.nonce text.now a.client_final a.signature) }
        ensures err { IfErr result (λ e. IsServerFirstRefusal self.now.nonce text.now e) }
    {
        let Some(parts) = read_server_first(text) else {
            return Err(ScramErrorKind::Malformed);
        };
        if !extends(self.nonce.as_bytes(), parts.nonce) {
            return Err(ScramErrorKind::NonceMismatch);
        }
        let Some(count) = read_count(parts.count) else {
            return Err(ScramErrorKind::Iterations);
        };
        let salt = decode(alloc, parts.salt)?;
        let bare = client_first_bare(alloc, self.user.as_bytes(), self.nonce.as_bytes())?;
        let final_bare = client_final_bare(alloc, parts.nonce)?;
        let auth = auth_message(alloc, bare.as_slice(), text, final_bare.as_slice())?;
        let mut salted = [0u8; 64];
        let mut proof = [0u8; 64];
        let mut signature = [0u8; 64];
        let salted = &mut salted[..D::OUTPUT];
        let proof = &mut proof[..D::OUTPUT];
        let signature = &mut signature[..D::OUTPUT];
        salted_into::<D>(self.password.as_bytes(), &salt, count, salted);
        proof_into::<D>(salted, auth.as_slice(), proof);
        signature_into::<D>(salted, auth.as_slice(), signature);
        Ok(ClientAnswer {
            server_first: Binary::from_slice(alloc, text)?,
            client_final: client_final(alloc, parts.nonce, proof)?,
            signature: Binary::from_slice(alloc, signature)?,
        })
    }

    /// Reads the server first, `r=NONCE,s=SALT,i=COUNT`, and gives the client final, `c=biws,r=NONCE,p=PROOF`.
    pub fn on_server_first(&mut self, alloc: Global, text: &[u8]) -> Result<Binary, ScramErrorKind>
        requires { self.old.phase ≡ ClientPhase.Unanswered }
        ensures ok { IfOk result (λ reply. (signature : List ℕ) × (self.new ≡ client_answered self.old text.now reply signature)
            × ClientAnswers D.digest D.BLOCK D.OUTPUT self.old.user self.old.password self.old.nonce text.now reply signature) }
        ensures err { IfErr result (λ e. IsServerFirstRefusal self.old.nonce text.now e) }
        ensures same { OnErr result (self.new ≡ self.old) }
    {
        let answer = self.answer(alloc, text)?;
        let reply = answer.client_final.try_clone(alloc)?;
        self.phase = ClientPhase::Answered(answer);
        Ok(reply)
    }

    /// Reads the server final, `v=SIGNATURE`; takes no memory.
    pub fn on_server_final(&mut self, text: &[u8]) -> Result<(), ScramErrorKind>
        requires { ForAnswered self.old.phase (λ _. Unit {0}) }
        ensures ok { OnOk result (self.new ≡ client_verified self.old) }
        ensures check { OnOk result (ForAnswered self.old.phase (λ a. ClientCheck D.digest D.BLOCK D.OUTPUT
            self.old.user self.old.password self.old.nonce
            (client_first_of self.old.user self.old.nonce) a.server_first a.client_final text.now)) }
        ensures err { IfErr result (λ e. ForAnswered self.old.phase (λ a. ClientAnswers D.digest D.BLOCK D.OUTPUT
            self.old.user self.old.password self.old.nonce a.server_first a.client_final a.signature
            × IsServerFinalRefusal D.OUTPUT a.signature text.now e)) }
        ensures same { OnErr result (self.new ≡ self.old) }
    {
        let ClientPhase::Answered(answer) = &self.phase else {
            unreachable!();
        };
        verify::<D>(answer.signature.as_slice(), text)?;
        self.phase = ClientPhase::Verified;
        Ok(())
    }
}

// Whether a server final has this signature.
fn verify<D: HashFn>(own: &[u8], text: &[u8]) -> Result<(), ScramErrorKind>
    ensures ok { OnOk result (IsServerFinal text.now (encode_of standard own.now)) }
    ensures err { IfErr result (λ e. IsServerFinalRefusal D.OUTPUT own.now text.now e) }
{
    let Some(written) = read_server_final(text) else {
        return Err(ScramErrorKind::Malformed);
    };
    let mut signature = [0u8; 64];
    let signature = &mut signature[..D::OUTPUT];
    if !decode_into(written, signature) {
        return Err(ScramErrorKind::Base64);
    }
    let signature: &[u8] = signature;
    if signature != own {
        return Err(ScramErrorKind::Signature);
    }
    Ok(())
}
