//! What the receiver reads and writes.
ghost use Rattle.std.specs.Prelude.{◌≡◌, OnOk, OnErr};
ghost use Rattle.std.specs.Option.{option_map};
ghost use Rattle.amqp_link.specs.Link as link;
ghost use Rattle.amqp_receiver.specs.Receiver.{TakesFrame, attach_read, transfer_read, flow_read};
ghost use Rattle.amqp_receiver.specs.Receiving.{disposition_read};
ghost use Rattle.amqp_shared_receiver.specs.Shared.{seen};

use crate::shared::SharedReceiver;
use amqp_link::amqp_frames::{CoveredDelivery, LinkFrame, SessionStopReason};
use amqp_performatives::attach::Attach;
use amqp_performatives::detach::Detach;
use amqp_performatives::flow::Flow;
use amqp_performatives::transfer::Transfer;
use bytes::Bytes;
use std::alloc::AllocError;

impl SharedReceiver {
    /// The first frame to be written.
    pub fn take_output(&mut self) -> Option<LinkFrame>
        ensures output { TakesFrame (seen self.old).receiver (option_map link.body_of result) (seen self.new).receiver }
        ensures taken { (seen self.new).is_taken ≡ (seen self.old).is_taken }
    {
        self.receiver.take_output()
    }

    /// The peer's Attach was read.
    pub fn on_attach(&mut self, attach: Attach) -> Result<(), AllocError>
        ensures { OnOk result (seen self.new ≡ record (seen self.old) { receiver = attach_read attach (seen self.old).receiver }) }
    {
        self.receiver.on_attach(attach)
    }

    /// A Transfer was read.
    pub fn on_transfer(&mut self, transfer: Transfer, payload: Bytes) -> Result<(), AllocError>
        ensures ok { OnOk result (seen self.new ≡ record (seen self.old) { receiver = transfer_read transfer payload (seen self.old).receiver }) }
        ensures err { OnErr result (seen self.new ≡ seen self.old) }
    {
        self.receiver.on_transfer(transfer, payload)
    }

    /// The sender's Flow was read.
    pub fn on_flow(&mut self, flow: &Flow) -> Result<(), AllocError>
        ensures ok { OnOk result (seen self.new ≡ record (seen self.old) { receiver = flow_read flow.now (seen self.old).receiver }) }
        ensures err { OnErr result (seen self.new ≡ seen self.old) }
    {
        self.receiver.on_flow(flow)
    }

    /// A Disposition of the sender was read that covers this delivery of the link.
    pub fn on_disposition(&mut self, covered: &CoveredDelivery, settled: bool)
        ensures { seen self.new ≡ record (seen self.old) { receiver = disposition_read covered.now settled (seen self.old).receiver } }
    {
        self.receiver.on_disposition(covered, settled);
    }

    /// The peer's Detach was read.
    pub fn on_detach(&mut self, detach: Detach) -> Result<(), AllocError>
        ensures ok { OnOk result (seen self.new ≡ record (seen self.old) { receiver = record (seen self.old).receiver { link = link.detach_read detach (seen self.old).receiver.link } }) }
        ensures err { OnErr result (seen self.new ≡ seen self.old) }
    {
        self.receiver.on_detach(detach)
    }

    /// The session has stopped.
    pub fn stop(&mut self, reason: SessionStopReason)
        ensures { seen self.new ≡ record (seen self.old) { receiver = record (seen self.old).receiver { link = link.stopped reason (seen self.old).receiver.link } } }
    {
        self.receiver.stop(reason);
    }
}
