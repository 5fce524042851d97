//! How the link is left.
ghost use Rattle.std.specs.Prelude.{◌≡◌, IfOk, OnOk};
ghost use Rattle.amqp_link.specs.Parting as link;
ghost use Rattle.amqp_shared_receiver.specs.Shared.{seen, is_kept, parted, parted_answer};

use crate::shared::SharedReceiver;
use amqp_composites::error::Error as AmqpError;
use amqp_link::{DetachError, DetachPoll};
use std::alloc::AllocError;

/// Whether the book that was taken keeps the link from being closed with an error.
fn is_kept(is_taken: bool, closes: bool, error: &Option<AmqpError>) -> bool
    ensures { result ≡ is_kept is_taken closes error.now }
{
    is_taken && closes && error.is_some()
}

impl SharedReceiver {
    /// Detaches the link, with that error, and closes it where asked, as `Receiver::part` does. Once the book was taken the link is not closed
    /// with an error: the answer is `IllegalState`, and nothing is written.
    pub fn part(&mut self, closes: bool, error: Option<AmqpError>) -> Result<DetachPoll, AllocError>
        ensures state { OnOk result (seen self.new ≡ parted closes error (seen self.old)) }
        ensures answer { IfOk result (λ p. p ≡ parted_answer closes error (seen self.old)) }
    {
        if is_kept(self.is_taken, closes, &error) {
            return Ok(DetachPoll::Failed(DetachError::IllegalState));
        }
        self.receiver.part(closes, error)
    }

    /// What a call is told that has waited since `part`, as `Receiver::poll_parted` tells it.
    pub fn poll_parted(&self, closes: bool) -> Result<DetachPoll, AllocError>
        ensures { IfOk result (λ p. p ≡ link.parted_poll closes (seen self.now).receiver.link) }
    {
        self.receiver.poll_parted(closes)
    }

    /// Lets the link go, as `Receiver::abandon` does.
    pub fn abandon(&mut self) -> Result<(), AllocError>
        ensures { OnOk result (seen self.new ≡ record (seen self.old) { receiver = record (seen self.old).receiver { link = link.abandoned (seen self.old).receiver.link } }) }
    {
        self.receiver.abandon()
    }
}
