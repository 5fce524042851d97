//! How a link is attached again so that it may be closed (OASIS AMQP 1.0, part 2, section 2.6.6).
ghost use Rattle.std.specs.Prelude.{◌≡◌, ◌<◌, ◌||◌, IfOk, OnOk, OnErr};
ghost use Rattle.amqp_link.specs.Link.{seen, has_unsettled, illegal_state, reclosing, reclosed_unless, reclosed};
ghost use Rattle.amqp_link.specs.Parting.{wants_handle, is_reattaching, again, reattached, unplaced};

use crate::attaching::let_go;
use crate::copies::copied_attach;
use crate::endpoint::{LinkEndpoint, LinkPhase};
use crate::error::{AttachFault, symbol};
use crate::rules::fault_of;
use amqp_composites::error::Error as AmqpError;
use amqp_data::Text;
use amqp_frames::LinkFrame;
use amqp_frames::amqp_performatives::attach::Attach;
use amqp_frames::amqp_termini::UnsettledMap;
use std::alloc::{AllocError, Global};

/// Whether an Attach tells of deliveries that are not settled.
fn has_unsettled(attach: &Attach) -> bool
    ensures { result ≡ has_unsettled attach.now }
{
    attach.unsettled.is_some() || attach.incomplete_unsettled
}

/// The error that a link has deliveries which are not settled.
fn illegal_state(alloc: Global) -> Result<AmqpError, AllocError>
    ensures { IfOk result (λ e. e ≡ illegal_state) }
{
    let condition = symbol(alloc, b"amqp:illegal-state")?;
    let description = Text::from_str(alloc, "IllegalState")?;
    Ok(AmqpError {
        condition,
        description: Some(description),
        info: None,
    })
}

impl LinkEndpoint {
    fn say_reclosing(&mut self, error: Option<AmqpError>, is_stuck: bool) -> Result<(), AllocError>
        ensures ok { OnOk result (seen self.new ≡ reclosing error is_stuck (seen self.old)) }
        ensures err { OnErr result (seen self.new ≡ seen self.old) }
    {
        self.make_room(1)?;
        self.say_close(error);
        self.phase = LinkPhase::RecloseSent;
        self.is_stuck = is_stuck;
        Ok(())
    }

    fn reclose_unless(
        &mut self,
        fault: Option<AttachFault>,
        unsettled: bool,
    ) -> Result<(), AllocError>
        ensures ok { OnOk result (seen self.new ≡ reclosed_unless fault unsettled (seen self.old)) }
        ensures err { OnErr result (seen self.new ≡ seen self.old) }
    {
        match fault {
            Some(fault) => {
                let error = fault.error(self.alloc)?;
                self.say_reclosing(error, true)
            }
            None if unsettled => {
                let error = illegal_state(self.alloc)?;
                self.say_reclosing(Some(error), true)
            }
            None => self.say_reclosing(None, false),
        }
    }

    /// The peer has attached the link again: it is closed.
    pub(crate) fn reclose(&mut self, attach: Attach) -> Result<(), AllocError>
        ensures ok { OnOk result (seen self.new ≡ reclosed attach (seen self.old)) }
        ensures err { OnErr result (seen self.new ≡ seen self.old) }
    {
        let mode = self.own.snd_settle_mode;
        let fault = fault_of(self.own.role, false, self.verify, mode, &attach);
        let unsettled = has_unsettled(&self.own) || has_unsettled(&attach);
        let_go(attach);
        self.reclose_unless(fault, unsettled)
    }

    /// Whether this end is to attach the link again, and has no handle for that yet.
    pub fn wants_handle(&self) -> bool
        ensures { result ≡ wants_handle (seen self.now).phase }
    {
        matches!(self.phase, LinkPhase::HandleWanted)
    }

    /// Whether this end has attached the link again, and the peer's Attach is awaited.
    pub fn is_reattaching(&self) -> bool
        ensures { result ≡ is_reattaching (seen self.now).phase }
    {
        matches!(self.phase, LinkPhase::ReattachSent)
    }

    /// What this end says of the link as it attaches again.
    fn set_again(&mut self, handle: u32, unsettled: Option<UnsettledMap>, count: Option<u32>)
        ensures { seen self.new ≡ record (seen self.old) { own = again handle unsettled count (seen self.old).own } }
    {
        self.own.handle = handle;
        self.own.unsettled = unsettled;
        self.own.incomplete_unsettled = false;
        self.own.initial_delivery_count = count;
    }

    /// Attaches the link again at that handle: the Attach is to be written, with the deliveries that are not settled and, of a sender,
    /// its delivery-count. For want of memory the link is not known any more.
    pub fn reattach(
        &mut self,
        handle: u32,
        unsettled: Option<UnsettledMap>,
        count: Option<u32>,
    ) -> Result<(), AllocError>
        ensures { OnOk result (seen self.new ≡ reattached handle unsettled count (seen self.old)) }
    {
        self.set_again(handle, unsettled, count);
        let attach = copied_attach(self.alloc, &self.own)?;
        self.make_room(1)?;
        self.say(LinkFrame::Attach(attach));
        self.phase = LinkPhase::ReattachSent;
        Ok(())
    }

    /// There is no handle at which the link could be attached again: it is not closed as it was asked.
    pub fn refuse_handle(&mut self)
        ensures { seen self.new ≡ unplaced (seen self.old) }
    {
        self.phase = LinkPhase::Detached;
        self.is_stuck = true;
    }
}
