//! Why an end goes no further.
ghost use Rattle.std.specs.Prelude.{◌≡◌, option_map};
ghost use Rattle.amqp_peer.specs.Held.{reason_of};

use crate::end::End;
use amqp_frames::ConnectionStopReason;
use amqp_wire::link::Link;

impl<L: Link> End<L> {
    /// Why the connection has stopped; none before it has begun and stopped.
    pub fn stop_reason(&self) -> Option<&ConnectionStopReason>
        ensures { option_map (λ r. r.now) result ≡ reason_of self.now.connection.held }
    {
        self.connection.stop_reason()
    }
}
