//! The frames of links that a session reads (OASIS AMQP 1.0, part 2, sections 2.6 and 2.7).
ghost use Rattle.std.specs.Prelude.{◌≡◌, Some, OnOk, nat_eq};
ghost use Rattle.indexmap.specs.IndexMap.{insert_entry};
ghost use Rattle.amqp_session.specs.State.{seen, handing, works, Answers};
ghost use Rattle.amqp_session.specs.Links.{input_at, attaching, attach_at, attach_read, detach_at, transfer_at, report, hand_flow, echo, flowed, is_astray, flow_at};
ghost use Rattle.amqp_session.specs.Windows.{transfer_read};
ghost use Rattle.amqp_session.specs.declared.session.LinkInput.TheVariants as input;
ghost use Rattle.amqp_composites.specs.declared.modes.Role.TheVariants as role;

use crate::error::{Error, Fault};
use crate::session::{LinkInput, Session};
use amqp_composites::modes::Role;
use amqp_performatives::attach::Attach;
use amqp_performatives::detach::Detach;
use amqp_performatives::disposition::Disposition;
use amqp_performatives::flow::Flow;
use amqp_performatives::transfer::Transfer;
use bytes::Bytes;
use std::alloc::AllocError;

impl Session {
    /// The peer's role at its handle, where that is attached.
    fn input_at(&self, handle: u32) -> Option<Role>
        ensures { result ≡ input_at handle (seen self.now) }
    {
        self.inputs.get(&handle).copied()
    }

    /// A Disposition was read.
    pub(crate) fn on_disposition(&mut self, disposition: Disposition) -> Result<(), Error>
        ensures { Answers result (works (handing (input.Disposition disposition) (seen self.old))) (seen self.new) }
    {
        self.hand(LinkInput::Disposition(disposition))?;
        Ok(())
    }

    /// Attaches a handle of the peer.
    fn enter(&mut self, handle: u32, role: Role) -> Result<(), AllocError>
        ensures { OnOk result (seen self.new ≡ record (seen self.old) { inputs = insert_entry nat_eq (seen self.old).inputs handle role }) }
    {
        self.inputs.insert(handle, role)?;
        Ok(())
    }

    fn attach(&mut self, attach: Attach) -> Result<(), Error>
        ensures { Answers result (works (attaching attach (seen self.old))) (seen self.new) }
    {
        let handle = attach.handle;
        let role = attach.role;
        self.hand(LinkInput::Attach(attach))?;
        self.enter(handle, role)?;
        Ok(())
    }

    fn attach_at(&mut self, attach: Attach) -> Result<(), Error>
        ensures { Answers result (attach_at (input_at attach.handle (seen self.old)) attach (seen self.old)) (seen self.new) }
    {
        match self.input_at(attach.handle) {
            Some(_) => self.fail(Fault::HandleInUse),
            None => self.attach(attach),
        }
    }

    /// An Attach was read.
    pub(crate) fn on_attach(&mut self, attach: Attach) -> Result<(), Error>
        ensures { Answers result (attach_read attach (seen self.old)) (seen self.new) }
    {
        if self.own_handle_max < attach.handle {
            return Err(Error::FramingError);
        }
        self.attach_at(attach)
    }

    fn detach(&mut self, detach: Detach) -> Result<(), Error>
        ensures { Answers result (detach_at (Some role.Sender) detach (seen self.old)) (seen self.new) }
    {
        self.inputs.shift_remove(&detach.handle);
        self.hand(LinkInput::Detach(detach))?;
        Ok(())
    }

    /// A Detach was read.
    pub(crate) fn on_detach(&mut self, detach: Detach) -> Result<(), Error>
        ensures { Answers result (detach_at (input_at detach.handle (seen self.old)) detach (seen self.old)) (seen self.new) }
    {
        match self.input_at(detach.handle) {
            Some(_) => self.detach(detach),
            None => self.fail(Fault::UnattachedHandle),
        }
    }

    /// Reports what was read, where that is due.
    fn report_if_due(&mut self) -> Result<(), AllocError>
        ensures { OnOk result (seen self.new ≡ report (seen self.old)) }
    {
        if self.windows.is_report_due() {
            return self.report();
        }
        Ok(())
    }

    fn transfer(&mut self, transfer: Transfer, payload: Bytes) -> Result<(), Error>
        ensures { Answers result (transfer_at (Some role.Sender) transfer payload (seen self.old)) (seen self.new) }
    {
        self.windows.on_transfer();
        self.hand(LinkInput::Transfer(transfer, payload))?;
        self.report_if_due()?;
        Ok(())
    }

    /// A Transfer was read.
    pub(crate) fn on_transfer(&mut self, transfer: Transfer, payload: Bytes) -> Result<(), Error>
        ensures { Answers result (transfer_at (input_at transfer.handle (seen self.old)) transfer payload (seen self.old)) (seen self.new) }
    {
        match self.input_at(transfer.handle) {
            Some(Role::Sender) => self.transfer(transfer, payload),
            Some(Role::Receiver) => self.fail(Fault::TransferFrameToSender),
            None => self.fail(Fault::UnattachedHandle),
        }
    }

    /// Hands a Flow to its link, if it speaks of one.
    fn hand_flow(&mut self, flow: Flow) -> Result<(), AllocError>
        ensures { OnOk result (seen self.new ≡ hand_flow flow.handle flow (seen self.old)) }
    {
        if flow.handle.is_some() {
            return self.hand(LinkInput::Flow(flow));
        }
        Ok(())
    }

    /// Answers a Flow, where that is asked for.
    fn echo(&mut self, is_asked: bool) -> Result<(), AllocError>
        ensures { OnOk result (seen self.new ≡ echo is_asked (seen self.old)) }
    {
        if is_asked {
            return self.report();
        }
        Ok(())
    }

    /// The session's part of a Flow comes first, then its link's.
    fn flow(&mut self, flow: Flow) -> Result<(), Error>
        ensures { Answers result (works (flowed flow (seen self.old))) (seen self.new) }
    {
        let echo = flow.echo;
        self.windows.on_flow(&flow);
        self.release()?;
        self.hand_flow(flow)?;
        self.echo(echo)?;
        Ok(())
    }

    /// Whether a Flow names a handle that is not attached.
    fn is_astray(&self, handle: Option<u32>) -> bool
        ensures { result ≡ is_astray handle (seen self.now) }
    {
        match handle {
            Some(handle) => self.input_at(handle).is_none(),
            None => false,
        }
    }

    /// A Flow was read.
    pub(crate) fn on_flow(&mut self, flow: Flow) -> Result<(), Error>
        ensures { Answers result (flow_at (is_astray flow.handle (seen self.old)) flow (seen self.old)) (seen self.new) }
    {
        if self.is_astray(flow.handle) {
            return self.fail(Fault::UnattachedHandle);
        }
        self.flow(flow)
    }
}
