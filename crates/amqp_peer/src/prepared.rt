//! What a call begins a connection with.
ghost use Rattle.std.specs.Prelude.{◌≡◌};
ghost use Rattle.amqp_peer.specs.Prepared.{half_of, own_open, client_prepared, listener_prepared, client_sasl, listener_sasl};

use amqp_engine::{Connection, EndKind, ListenerConnection};
use amqp_opening::AcceptSasl;
use amqp_opening::authentication::SaslCall;
use amqp_performatives::open::Open;
use amqp_text::Text;
use amqp_words::ConnectionSettings;
use sasl_gate::SaslProfile;

/// What an end begins its connection with once the headers are exchanged.
#[derive(Debug, Drop)]
pub struct Prepared {
    /// Which end it is, and its Open.
    pub end: EndKind,
    /// How long it waits for a frame, in milliseconds; 0 is for ever.
    pub idle: Option<u32>,
}

fn half_of(idle: Option<u32>) -> Option<u32>
    ensures { result ≡ half_of idle }
{
    match idle {
        Some(idle) => Some(idle / 2),
        None => None,
    }
}

fn own_open(settings: ConnectionSettings, announced: Option<u32>) -> Open
    ensures { result ≡ own_open settings announced }
{
    Open {
        container_id: settings.container_id,
        hostname: settings.hostname,
        max_frame_size: settings.max_frame_size.max(512),
        channel_max: settings.channel_max,
        idle_time_out: announced,
        outgoing_locales: None,
        incoming_locales: None,
        offered_capabilities: None,
        desired_capabilities: None,
        properties: None,
    }
}

/// A client announces half of its idle time, so that the peer's empty frames come in time (part 2, section 2.4.5).
pub fn client_prepared(settings: ConnectionSettings) -> Prepared
    ensures { result ≡ client_prepared settings }
{
    let idle = settings.idle_time_out;
    let local_open = own_open(settings, half_of(idle));
    Prepared {
        end: EndKind::Client(Connection::new(local_open)),
        idle,
    }
}

/// A listener announces its idle time whole.
pub fn listener_prepared(settings: ConnectionSettings) -> Prepared
    ensures { result ≡ listener_prepared settings }
{
    let idle = settings.idle_time_out;
    let local_open = own_open(settings, idle);
    Prepared {
        end: EndKind::Listener(ListenerConnection::new(local_open)),
        idle,
    }
}

/// The SASL layer of a client, if it has one.
pub fn client_sasl(profile: Option<SaslProfile>, hostname: Option<Text>) -> Option<SaslCall>
    ensures { result ≡ client_sasl profile hostname }
{
    match profile {
        Some(profile) => Some(SaslCall::Client { profile, hostname }),
        None => None,
    }
}

/// The SASL layer of a listener, if it has one.
pub fn listener_sasl(acceptor: Option<AcceptSasl>) -> Option<SaslCall>
    ensures { result ≡ listener_sasl acceptor }
{
    match acceptor {
        Some(acceptor) => Some(SaslCall::Listener(acceptor)),
        None => None,
    }
}
