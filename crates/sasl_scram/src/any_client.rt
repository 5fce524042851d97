//! The client's side of SCRAM with a hash function that is data.

ghost use Rattle.std.specs.Prelude.{◌≡◌, ℕ, List, IfOk, IfErr, OnOk, OnErr};
ghost use Rattle.sasl_scram.specs.declared.client.ClientPhase.{ClientPhase};
ghost use Rattle.sasl_scram.specs.declared.error.ScramErrorKind.TheVariants.{TextNotAllowed};
ghost use Rattle.sasl_scram.specs.Check.{ClientAnswers, ClientCheck};
ghost use Rattle.sasl_scram.specs.Hashes.{digest_of, block_of, output_of};
ghost use Rattle.sasl_scram.specs.Profile.{IsAllowedUser, IsAllowedPassword, IsNonce};
ghost use Rattle.sasl_scram.specs.Refusals.{IsServerFirstRefusal, IsServerFinalRefusal};
ghost use Rattle.sasl_scram.specs.States.{client_answered, client_verified, ForAnswered};
ghost use Rattle.sasl_scram.specs.Texts.{client_first_of};

use crate::client::{ClientPhase, ScramClient};
use crate::error::ScramErrorKind;
use crate::hash::ScramHash;
use amqp_text::{Binary, Text};
use kdf_core::{Sha1Fn, Sha256Fn, Sha512Fn};
use std::alloc::Global;
use std::marker::Model;

// The client of each hash function.
#[derive(Drop)]
enum ChosenClient {
    Sha1(ScramClient<Sha1Fn>),
    Sha256(ScramClient<Sha256Fn>),
    Sha512(ScramClient<Sha512Fn>),
}

/// The client's side of SCRAM with the hash function that it was made with. Its calls are those of `ScramClient`, in
/// the same order.
#[derive(Drop)]
pub struct AnyScramClient {
    chosen: ChosenClient,
}

impl Model for AnyScramClient {
    ghost use Rattle.sasl_scram.specs.AnyScram.{hashed_client};
    ghost use Rattle.sasl_scram.specs.States.{HashedClient};

    ghost Value = { HashedClient };

    ghost view = { λ c. hashed_client c.chosen };
}

impl AnyScramClient {
    /// A client that has read nothing. `nonce` is to be new for each exchange. `TextNotAllowed` comes exactly where user
    /// or password is outside the profile; takes no memory.
    pub fn new(
        hash: ScramHash,
        user: Text,
        password: Text,
        nonce: Text,
    ) -> Result<Self, ScramErrorKind>
        requires { IsNonce nonce }
        ensures ok { IfOk result (λ c. c ≡ record { hash = hash; client = record { user = user; password = password; nonce = nonce; phase = ClientPhase.Unanswered } }) }
        ensures allowed { OnOk result (IsAllowedUser user × IsAllowedPassword password) }
        ensures err { IfErr result (λ e. (e ≡ TextNotAllowed) × (¬ (IsAllowedUser user × IsAllowedPassword password))) }
    {
        let chosen = match hash {
            ScramHash::Sha1 => ChosenClient::Sha1(ScramClient::new(user, password, nonce)?),
            ScramHash::Sha256 => ChosenClient::Sha256(ScramClient::new(user, password, nonce)?),
            ScramHash::Sha512 => ChosenClient::Sha512(ScramClient::new(user, password, nonce)?),
        };
        Ok(AnyScramClient { chosen })
    }

    /// The hash function.
    pub fn hash(&self) -> ScramHash
        ensures { result ≡ self.now.hash }
    {
        match &self.chosen {
            ChosenClient::Sha1(_) => ScramHash::Sha1,
            ChosenClient::Sha256(_) => ScramHash::Sha256,
            ChosenClient::Sha512(_) => ScramHash::Sha512,
        }
    }

    /// The client first, `n,,n=USER,r=NONCE`; the one error is `Memory`.
    pub fn first(&self, alloc: Global) -> Result<Binary, ScramErrorKind>
        ensures { IfOk result (λ text. text ≡ client_first_of self.now.client.user self.now.client.nonce) }
    {
        match &self.chosen {
            ChosenClient::Sha1(client) => client.first(alloc),
            ChosenClient::Sha256(client) => client.first(alloc),
            ChosenClient::Sha512(client) => client.first(alloc),
        }
    }

    /// Reads the server first, `r=NONCE,s=SALT,i=COUNT`, and gives the client final, `c=biws,r=NONCE,p=PROOF`.
    pub fn on_server_first(&mut self, alloc: Global, text: &[u8]) -> Result<Binary, ScramErrorKind>
        requires { self.old.client.phase ≡ ClientPhase.Unanswered }
        ensures ok { IfOk result (λ reply. (signature : List ℕ)
            × (self.new ≡ record self.old { client = client_answered self.old.client text.now reply signature })
            × ClientAnswers (digest_of self.old.hash) (block_of self.old.hash) (output_of self.old.hash)
            self.old.client.user self.old.client.password self.old.client.nonce text.now reply signature) }
        ensures err { IfErr result (λ e. IsServerFirstRefusal self.old.client.nonce text.now e) }
        ensures same { OnErr result (self.new ≡ self.old) }
    {
        match &mut self.chosen {
            ChosenClient::Sha1(client) => client.on_server_first(alloc, text),
            ChosenClient::Sha256(client) => client.on_server_first(alloc, text),
            ChosenClient::Sha512(client) => client.on_server_first(alloc, text),
        }
    }

    /// Reads the server final, `v=SIGNATURE`; takes no memory.
    pub fn on_server_final(&mut self, text: &[u8]) -> Result<(), ScramErrorKind>
        requires { ForAnswered self.old.client.phase (λ _. Unit {0}) }
        ensures ok { OnOk result (self.new ≡ record self.old { client = client_verified self.old.client }) }
        ensures check { OnOk result (ForAnswered self.old.client.phase (λ a.
            ClientCheck (digest_of self.old.hash) (block_of self.old.hash) (output_of self.old.hash)
            self.old.client.user self.old.client.password self.old.client.nonce
            (client_first_of self.old.client.user self.old.client.nonce) a.server_first a.client_final text.now)) }
        ensures err { IfErr result (λ e. ForAnswered self.old.client.phase (λ a.
            ClientAnswers (digest_of self.old.hash) (block_of self.old.hash) (output_of self.old.hash)
            self.old.client.user self.old.client.password self.old.client.nonce a.server_first a.client_final a.signature
            × IsServerFinalRefusal (output_of self.old.hash) a.signature text.now e)) }
        ensures same { OnErr result (self.new ≡ self.old) }
    {
        match &mut self.chosen {
            ChosenClient::Sha1(client) => client.on_server_final(text),
            ChosenClient::Sha256(client) => client.on_server_final(text),
            ChosenClient::Sha512(client) => client.on_server_final(text),
        }
    }
}
