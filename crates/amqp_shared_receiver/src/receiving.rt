//! The next message.
ghost use Rattle.amqp_shared_receiver.specs.Shared.{seen, Gets};

use crate::shared::SharedReceiver;
use amqp_link::LinkStateError;
use amqp_receiver::{RecvError, RecvReply};

impl SharedReceiver {
    /// The next message, as `Receiver::recv` gives it. `IllegalState` comes where the book was taken.
    pub fn recv(&mut self) -> Result<RecvReply, RecvError>
        ensures { Gets result (seen self.old) (seen self.new) }
    {
        if self.is_taken {
            return Err(RecvError::LinkStateError(LinkStateError::IllegalState));
        }
        self.receiver.recv()
    }
}
