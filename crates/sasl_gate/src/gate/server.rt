//! The listener's gate: a SASL negotiation over a link with any of the mechanisms (OASIS AMQP 1.0, part 5, section 5.3).
ghost use Rattle.std.specs.Prelude.{◌≡◌, ◌^◌, ℕ, IfOk, IfErr};
ghost use Rattle.std.specs.Borrow.{Lends, sem};
ghost use Rattle.sasl_exchange.specs.AnyServer.{any_server_mechanism, HasMechanism};
ghost use Rattle.sasl_gate.specs.Negotiation.{IsPassed};
ghost use Rattle.sasl_gate.specs.ServerGate.{IsServerStarted, ServerPolled};

use crate::gate::client::READS_OF_POLL;
use crate::gate::negotiation::{GatePoll, Negotiation};
use amqp_wire::codec::FramedCodec;
use amqp_wire::link::Link;
use sasl_exchange::acceptor::SaslAcceptor;
use sasl_exchange::error::NegotiationError;
use sasl_exchange::server::ServerExchange;
use sasl_scram::provider::{PlainCredentialProvider, ScramCredentialProvider};
use std::alloc::{AllocError, Global};
use std::marker::Model;

/// The listener's gate: with SCRAM it passes where the client has shown that it knows the password of a user of `P`
/// (RFC 5802, section 3), with PLAIN where the client has told the password of a user of `Q` (RFC 4616, section 2), and
/// with ANONYMOUS where the client has asked for it. It writes nothing but the SASL header and SASL frames before.
#[derive(Drop)]
pub struct ServerGate<L: Link, Q: PlainCredentialProvider, P: ScramCredentialProvider> {
    negotiation: Negotiation<L, ServerExchange<Q, P>>,
}

impl<L: Link, Q: PlainCredentialProvider, P: ScramCredentialProvider> Model
    for ServerGate<L, Q, P> {
    ghost use Rattle.sasl_exchange.specs.declared.server.ServerExchange.{ServerExchange};
    ghost use Rattle.sasl_gate.specs.Negotiation.{Negotiating};

    ghost Value = { Negotiating L (ServerExchange Q P) };

    ghost view = { λ g. g.negotiation };
}

impl<L: Link, Q: PlainCredentialProvider, P: ScramCredentialProvider> ServerGate<L, Q, P> {
    ghost use Rattle.sasl_gate.specs.contracts.gate.server.ServerGate.{the_row};

    /// A gate that begins for an acceptor with a mechanism, which it offers: its SASL header is queued (part 5, section
    /// 5.3.2). A nonce is to be new for each exchange (RFC 5802, section 5.1). The one error is want of memory, which hands
    /// the codec back as it was.
    pub fn new(
        alloc: Global,
        codec: FramedCodec<L>,
        acceptor: SaslAcceptor<Q, P>,
    ) -> Result<Self, (AllocError, FramedCodec<L>)>
        requires { HasMechanism acceptor }
        ensures ok { IfOk result (IsServerStarted codec acceptor) }
        ensures err { IfErr result (λ e. e.1 ≡ codec) }
    {
        match Negotiation::start(alloc, codec, ServerExchange::new(acceptor)) {
            Ok(negotiation) => Ok(ServerGate { negotiation }),
            Err(error) => Err(error),
        }
    }

    /// The link.
    pub fn link(&mut self) -> &mut L
        ensures* writes_back { sem 𝓛 (Lends (the_row L.row Q.row P.row L.Link Q.PlainCredentialProvider P.ScramCredentialProvider) L.row self.entry result (λ w. record self.old { codec = record self.old.codec { link = w } })) }
        ensures value { result.now ≡ self.old.codec.link }
    {
        self.negotiation.link()
    }

    /// Gives the codec up once the gate has passed, with what was read and not taken.
    pub fn into_framed_codec(self) -> FramedCodec<L>
        requires { IsPassed (any_server_mechanism Q.passwords P.stored) self }
        ensures { result ≡ self.codec }
    {
        self.negotiation.into_framed_codec()
    }

    /// Gives the codec up at any time, as where the gate has failed.
    pub fn abandon(self) -> FramedCodec<L>
        ensures { result ≡ self.codec }
    {
        self.negotiation.into_framed_codec()
    }

    /// Goes on until it has passed or failed, or can do no more now: with at most `reads_left` reads of the link that
    /// give bytes, which are counted down. A failure is answered again at each later call.
    pub fn poll_within(&mut self, reads_left: &mut u64) -> Result<GatePoll, NegotiationError>
        ensures { ServerPolled L.Link Q.passwords P.stored self.old reads_left.old result self.new reads_left.new }
    {
        self.negotiation.poll_within(reads_left)
    }
}

/// Goes on until the gate has passed or failed, or can do no more now. `Passed` says that the whole exchange was read
/// and written and its check holds (part 5, section 5.3.2; RFC 5802, section 3; RFC 4616, section 2). A failure is answered again at each
/// later call. `at` is the moment of the call, in milliseconds, which a negotiation does not use.
pub fn poll_server<L: Link, Q: PlainCredentialProvider, P: ScramCredentialProvider>(
    gate: &mut ServerGate<L, Q, P>,
    at: u64,
) -> Result<GatePoll, NegotiationError>
    ensures { (left : ℕ) × ServerPolled L.Link Q.passwords P.stored gate.old (2 ^ 63) result gate.new left }
{
    let _ = at;
    let mut reads_left = READS_OF_POLL;
    gate.poll_within(&mut reads_left)
}
