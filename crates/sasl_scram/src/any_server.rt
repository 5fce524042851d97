//! The listener's side of SCRAM with a hash function that is data.

ghost use Rattle.std.specs.Prelude.{◌≡◌, ℕ, List, IfOk, IfErr, OnOk, OnErr};
ghost use Rattle.sasl_scram.specs.declared.server.ServerPhase.{ServerPhase};
ghost use Rattle.sasl_scram.specs.declared.stored.StoredPassword.{StoredPassword};
ghost use Rattle.sasl_scram.specs.Check.{ServerAnswers, ServerCheck};
ghost use Rattle.sasl_scram.specs.Hashes.{digest_of, block_of, output_of};
ghost use Rattle.sasl_scram.specs.Profile.{IsNonce};
ghost use Rattle.sasl_scram.specs.Refusals.{IsClientFirstRefusal, IsClientFinalRefusal};
ghost use Rattle.sasl_scram.specs.States.{server_challenged, server_proved, ForChallenged};

use crate::error::ScramErrorKind;
use crate::hash::ScramHash;
use crate::provider::ScramCredentialProvider;
use crate::server::{ScramServer, ServerPhase};
use amqp_text::{Binary, Text};
use kdf_core::{Sha1Fn, Sha256Fn, Sha512Fn};
use std::alloc::Global;
use std::marker::Model;

// The listener of each hash function.
#[derive(Drop)]
enum ChosenServer<P: ScramCredentialProvider> {
    Sha1(ScramServer<Sha1Fn, P>),
    Sha256(ScramServer<Sha256Fn, P>),
    Sha512(ScramServer<Sha512Fn, P>),
}

/// The listener's side of SCRAM with the hash function that it was made with, and the users of `P`. Its calls are those
/// of `ScramServer`, in the same order.
#[derive(Drop)]
pub struct AnyScramServer<P: ScramCredentialProvider> {
    chosen: ChosenServer<P>,
}

impl<P: ScramCredentialProvider> Model for AnyScramServer<P> {
    ghost use Rattle.sasl_scram.specs.AnyScram.{hashed_server};
    ghost use Rattle.sasl_scram.specs.States.{HashedServer};

    ghost Value = { HashedServer P };

    ghost view = { λ s. hashed_server s.chosen };
}

impl<P: ScramCredentialProvider> AnyScramServer<P> {
    /// A listener that has read nothing. `nonce` is to be new for each exchange; takes no memory.
    pub fn new(hash: ScramHash, provider: P, nonce: Text) -> Self
        requires { IsNonce nonce }
        ensures { result ≡ record { hash = hash; server = record { provider = provider; nonce = nonce; phase = ServerPhase.Unasked } } }
    {
        let chosen = match hash {
            ScramHash::Sha1 => ChosenServer::Sha1(ScramServer::new(provider, nonce)),
            ScramHash::Sha256 => ChosenServer::Sha256(ScramServer::new(provider, nonce)),
            ScramHash::Sha512 => ChosenServer::Sha512(ScramServer::new(provider, nonce)),
        };
        AnyScramServer { chosen }
    }

    /// The hash function.
    pub fn hash(&self) -> ScramHash
        ensures { result ≡ self.now.hash }
    {
        match &self.chosen {
            ChosenServer::Sha1(_) => ScramHash::Sha1,
            ChosenServer::Sha256(_) => ScramHash::Sha256,
            ChosenServer::Sha512(_) => ScramHash::Sha512,
        }
    }

    /// Reads the client first, `n,,n=USER,r=NONCE` or the same with `y,,`, and gives the server first,
    /// `r=NONCE,s=SALT,i=COUNT`.
    pub fn on_client_first(&mut self, alloc: Global, text: &[u8]) -> Result<Binary, ScramErrorKind>
        requires { self.old.server.phase ≡ ServerPhase.Unasked }
        ensures ok { IfOk result (λ reply. (user : List ℕ) × (whole_nonce : List ℕ) × (keys : StoredPassword)
            × (self.new ≡ record self.old { server = server_challenged self.old.server text.now user whole_nonce reply })
            × ServerAnswers (P.stored self.old.server.provider) self.old.server.nonce text.now user whole_nonce reply keys) }
        ensures err { IfErr result (λ e. IsClientFirstRefusal (P.stored self.old.server.provider) text.now e) }
        ensures same { OnErr result (self.new ≡ self.old) }
    {
        match &mut self.chosen {
            ChosenServer::Sha1(server) => server.on_client_first(alloc, text),
            ChosenServer::Sha256(server) => server.on_client_first(alloc, text),
            ChosenServer::Sha512(server) => server.on_client_first(alloc, text),
        }
    }

    /// Reads the client final, `c=biws,r=NONCE,p=PROOF` (`c=eSws` where the client first began with `y`), and gives the
    /// server final, `v=SIGNATURE`.
    pub fn on_client_final(&mut self, alloc: Global, text: &[u8]) -> Result<Binary, ScramErrorKind>
        requires { ForChallenged self.old.server.phase (λ _. Unit {0}) }
        ensures ok { OnOk result (self.new ≡ record self.old { server = server_proved self.old.server }) }
        ensures check { IfOk result (λ reply. ForChallenged self.old.server.phase (λ c.
            ServerCheck (digest_of self.old.hash) (block_of self.old.hash) (output_of self.old.hash)
            (P.stored self.old.server.provider) self.old.server.nonce c.user c.client_first c.server_first text.now reply)) }
        ensures err { IfErr result (λ e. ForChallenged self.old.server.phase (λ c. (keys : StoredPassword)
            × (answers : ServerAnswers (P.stored self.old.server.provider) self.old.server.nonce c.client_first c.user c.nonce c.server_first keys)
            × IsClientFinalRefusal (digest_of self.old.hash) (block_of self.old.hash) (output_of self.old.hash)
            keys.stored_key answers.header answers.bare c.server_first c.nonce text.now e)) }
        ensures same { OnErr result (self.new ≡ self.old) }
    {
        match &mut self.chosen {
            ChosenServer::Sha1(server) => server.on_client_final(alloc, text),
            ChosenServer::Sha256(server) => server.on_client_final(alloc, text),
            ChosenServer::Sha512(server) => server.on_client_final(alloc, text),
        }
    }
}
