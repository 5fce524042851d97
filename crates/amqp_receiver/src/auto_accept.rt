//! Deliveries that are accepted as they are given (OASIS AMQP 1.0, part 2, section 2.6.12, and part 3, section 3.4.2).
ghost use Rattle.std.specs.Prelude.{◌≡◌, OnOk};
ghost use Rattle.amqp_receiver.specs.AutoAccept.{is_open, unwritten, written_if_open, accepted_at_once, auto_accepted};
ghost use Rattle.amqp_receiver.specs.Receiver.{seen};

use crate::receiver::Receiver;
use amqp_delivery::DeliveryInfo;
use amqp_termini::{Accepted, DeliveryState};
use std::alloc::AllocError;
use std::slice;

impl Receiver {
    /// Whether a Disposition may still be written: the link is attached, and its session has not stopped.
    fn is_open(&self) -> bool
        ensures { result ≡ is_open (seen self.now) }
    {
        self.link.is_attached() && self.link.stop_reason().is_none()
    }

    /// What the book has ordered is not written.
    fn drop_orders(&mut self)
        ensures { seen self.new ≡ unwritten (seen self.old) }
    {
        drop(self.book.take_orders());
    }

    fn write_if_open(&mut self) -> Result<(), AllocError>
        ensures { OnOk result (seen self.new ≡ written_if_open (seen self.old)) }
    {
        if self.is_open() {
            return self.write_book();
        }
        self.drop_orders();
        Ok(())
    }

    /// The book accepts the delivery, also where nothing can be written of it any more.
    fn accept_at_once(&mut self, info: &DeliveryInfo) -> Result<(), AllocError>
        ensures { OnOk result (seen self.new ≡ accepted_at_once info.now (seen self.old)) }
    {
        let view = self.view();
        let accepted = DeliveryState::Accepted(Accepted {});
        let reply = self
            .book
            .dispose_all(&view, slice::from_ref(info), accepted)?;
        self.end_drain_if(&reply);
        self.write_if_open()
    }

    /// Accepts a delivery that is given, where this is to be done at once. The one error is want of memory.
    pub(crate) fn accept_if_auto(&mut self, info: &DeliveryInfo) -> Result<(), AllocError>
        ensures { OnOk result (seen self.new ≡ auto_accepted info.now (seen self.old)) }
    {
        if !self.auto_accept {
            return Ok(());
        }
        self.accept_at_once(info)
    }
}
