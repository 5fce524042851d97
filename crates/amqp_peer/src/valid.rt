//! Which calls may be made.
ghost use Rattle.std.specs.Prelude.{◌↔◌, IsTrue};
ghost use Rattle.amqp_peer.specs.Calls.{IsFirstCall};

use crate::peer::PeerKind;
use amqp_opening::{is_allowed_acceptor, is_allowed_profile};
use amqp_words::Call;

/// Whether a call may be the first of an end: `open` at a client, `accept` at a listener, each with a nonce of 1 or more visible
/// ASCII characters other than the comma where it has a SASL layer, and `accept` with a salt of 1 to 64 bytes and 1 to 10,000,000
/// iterations.
pub fn is_first_call(kind: PeerKind, call: &Call) -> bool
    ensures { IsTrue result ↔ IsFirstCall kind call.now }
{
    match (kind, call) {
        (PeerKind::Client, Call::Open { sasl, .. }) => match sasl {
            Some(profile) => is_allowed_profile(profile),
            None => true,
        },
        (PeerKind::Listener, Call::Accept { sasl, .. }) => match sasl {
            Some(acceptor) => is_allowed_acceptor(acceptor),
            None => true,
        },
        _ => false,
    }
}
