//! The client's gate: a SASL negotiation over a link with any of the mechanisms (OASIS AMQP 1.0, part 5, section 5.3).
ghost use Rattle.std.specs.Prelude.{◌≡◌, ◌^◌, ℕ, IfOk, IfErr, OnOk};
ghost use Rattle.std.specs.Borrow.{Lends, sem};
ghost use Rattle.sasl_exchange.specs.AnyClient.{any_client_mechanism, any_client_begun};
ghost use Rattle.sasl_exchange.specs.Credentials.{credentials_of, IsAllowedTexts, HasNonce};
ghost use Rattle.sasl_gate.specs.ClientGate.{IsStartRefusal, ClientPolled};
ghost use Rattle.sasl_gate.specs.Gates.{started};
ghost use Rattle.sasl_gate.specs.Negotiation.{IsPassed};

use crate::gate::negotiation::{GatePoll, Negotiation};
use amqp_text::Text;
use amqp_wire::codec::FramedCodec;
use amqp_wire::link::Link;
use sasl_exchange::client::ClientExchange;
use sasl_exchange::error::NegotiationError;
use sasl_exchange::profile::SaslProfile;
use sasl_scram::error::ScramErrorKind;
use std::alloc::Global;
use std::marker::Model;

/// The most reads of a poll that give bytes.
pub const READS_OF_POLL: u64 = 1 << 63;

/// The client's gate: with SCRAM it passes where the listener has shown that it knows the password (RFC 5802, section 3),
/// and with ANONYMOUS and PLAIN where it has read outcome `Ok`. It writes nothing but the SASL header and SASL frames
/// before.
#[derive(Drop)]
pub struct ClientGate<L: Link> {
    negotiation: Negotiation<L, ClientExchange>,
}

impl<L: Link> Model for ClientGate<L> {
    ghost use Rattle.sasl_exchange.specs.declared.client.ClientExchange.{ClientExchange};
    ghost use Rattle.sasl_gate.specs.Negotiation.{Negotiating};

    ghost Value = { Negotiating L ClientExchange };

    ghost view = { λ g. g.negotiation };
}

impl<L: Link> ClientGate<L> {
    ghost use Rattle.sasl_gate.specs.contracts.gate.client.ClientGate.{the_row};

    /// A gate that begins: its SASL header is queued (part 5, section 5.3.2). `TextNotAllowed` comes exactly where user
    /// or password is outside the profile, and the other error is want of memory; each hands the codec back as it was.
    #[tactic(auto, using(crate::proofs::ClientGates::start_refused))]
    pub fn new(
        alloc: Global,
        codec: FramedCodec<L>,
        profile: SaslProfile,
        hostname: Option<Text>,
    ) -> Result<Self, (NegotiationError, FramedCodec<L>)>
        requires { HasNonce (credentials_of profile) }
        ensures ok { IfOk result (λ g. g ≡ started codec (any_client_begun (credentials_of profile) hostname)) }
        ensures allowed { OnOk result (IsAllowedTexts (credentials_of profile)) }
        ensures refused { IfErr result (λ e. IsStartRefusal (IsAllowedTexts (credentials_of profile)) e.0) }
        ensures unchanged { IfErr result (λ e. e.1 ≡ codec) }
    {
        let exchange = match ClientExchange::new(alloc, profile, hostname) {
            Ok(exchange) => exchange,
            Err(ScramErrorKind::Memory(error)) => {
                return Err((NegotiationError::Memory(error), codec));
            }
            Err(kind) => return Err((NegotiationError::ScramError(kind), codec)),
        };
        match Negotiation::start(alloc, codec, exchange) {
            Ok(negotiation) => Ok(ClientGate { negotiation }),
            Err((error, codec)) => Err((NegotiationError::Memory(error), codec)),
        }
    }

    /// The link.
    pub fn link(&mut self) -> &mut L
        ensures* writes_back { sem 𝓛 (Lends (the_row L.row L.Link) L.row self.entry result (λ w. record self.old { codec = record self.old.codec { link = w } })) }
        ensures value { result.now ≡ self.old.codec.link }
    {
        self.negotiation.link()
    }

    /// Gives the codec up once the gate has passed, with what was read and not taken.
    pub fn into_framed_codec(self) -> FramedCodec<L>
        requires { IsPassed any_client_mechanism self }
        ensures { result ≡ self.codec }
    {
        self.negotiation.into_framed_codec()
    }

    /// Gives the codec up at any time, as where the gate has failed.
    pub fn abandon(self) -> FramedCodec<L>
        ensures { result ≡ self.codec }
    {
        self.negotiation.into_framed_codec()
    }

    /// Goes on until it has passed or failed, or can do no more now: with at most `reads_left` reads of the link that
    /// give bytes, which are counted down. A failure is answered again at each later call.
    pub fn poll_within(&mut self, reads_left: &mut u64) -> Result<GatePoll, NegotiationError>
        ensures { ClientPolled L.Link self.old reads_left.old result self.new reads_left.new }
    {
        self.negotiation.poll_within(reads_left)
    }
}

/// Goes on until the gate has passed or failed, or can do no more now. `Passed` says that the whole exchange was read
/// and written and, with SCRAM, that its check holds (part 5, section 5.3.2; RFC 5802, section 3). A failure is answered
/// again at each later call. `at` is the moment of the call, in milliseconds, which a negotiation does not use.
pub fn poll_client<L: Link>(gate: &mut ClientGate<L>, at: u64) -> Result<GatePoll, NegotiationError>
    ensures { (left : ℕ) × ClientPolled L.Link gate.old (2 ^ 63) result gate.new left }
{
    let _ = at;
    let mut reads_left = READS_OF_POLL;
    gate.poll_within(&mut reads_left)
}
