//! Disposers of the deliveries of a link, and which deliveries are settled (OASIS AMQP 1.0, part 2, section 2.6.12).
ghost use Rattle.std.specs.Prelude.{◌≡◌, IfOk, OnOk};
ghost use Rattle.amqp_link_words.specs.amqp_receiver.Receiver as receiving;
ghost use Rattle.amqp_link_calls.specs.Called.{with_side};
ghost use Rattle.amqp_link_calls.specs.Disposers.{view_of, disposing_by, disposes_by, settles, settles_at_once, is_receiving};
ghost use Rattle.amqp_link_calls.specs.Replies.{disposal_reply};
ghost use Rattle.amqp_link_calls.specs.Side.{seen};

use crate::called::CalledLink;
use crate::replies::terminal_state;
use crate::side::LinkSide;
use amqp_delivery::{DeliveryInfo, DisposerView};
use amqp_link::{IllegalLinkStateError, LinkPhase};
use amqp_link_words::amqp_receiver::Receiver;
use amqp_link_words::{Disposal, LinkReply};
use amqp_termini::DeliveryState;
use std::alloc::AllocError;

fn dispose_by(
    receiver: &mut Receiver,
    view: &DisposerView,
    disposal: Disposal,
    infos: &[DeliveryInfo],
) -> Result<LinkReply, AllocError>
    ensures state { OnOk result (receiving.seen receiver.new ≡ (disposing_by view.now disposal infos.now (receiving.seen receiver.old)).state) }
    ensures answer { IfOk result (λ r. r ≡ disposal_reply (disposing_by view.now disposal infos.now (receiving.seen receiver.old)).answer) }
{
    let state = DeliveryState::from(terminal_state(disposal));
    match receiver.dispose_by(view, infos, state) {
        Ok(()) => Ok(LinkReply::Done),
        Err(IllegalLinkStateError::Memory(error)) => Err(error),
        Err(error) => Ok(LinkReply::DispositionError(error)),
    }
}

impl LinkSide {
    fn view(&self) -> Option<DisposerView>
        ensures { result ≡ view_of (seen self.now) }
    {
        match self {
            LinkSide::Receiver(receiver) => Some(receiver.view()),
            LinkSide::Sender(_) => None,
        }
    }

    fn dispose_by(
        &mut self,
        view: &DisposerView,
        disposal: Disposal,
        infos: &[DeliveryInfo],
    ) -> Result<LinkReply, AllocError>
        ensures state { OnOk result (seen self.new ≡ (disposes_by view.now disposal infos.now (seen self.old)).side) }
        ensures answer { IfOk result (λ r. r ≡ (disposes_by view.now disposal infos.now (seen self.old)).reply) }
    {
        match self {
            LinkSide::Receiver(receiver) => dispose_by(receiver, view, disposal, infos),
            LinkSide::Sender(_) => Ok(LinkReply::DispositionError(
                IllegalLinkStateError::IllegalState,
            )),
        }
    }

    fn settles(&self, info: &DeliveryInfo) -> bool
        ensures { result ≡ settles info.now (seen self.now) }
    {
        match self {
            LinkSide::Receiver(receiver) => receiver.settles(info),
            LinkSide::Sender(_) => false,
        }
    }

    fn settles_at_once(&self, info: &DeliveryInfo) -> bool
        ensures { result ≡ settles_at_once info.now (seen self.now) }
    {
        match self {
            LinkSide::Receiver(receiver) => receiver.auto_accept() && receiver.settles(info),
            LinkSide::Sender(_) => false,
        }
    }

    fn is_receiving(&self) -> bool
        ensures { result ≡ is_receiving (seen self.now) }
    {
        match self {
            LinkSide::Receiver(receiver) => matches!(receiver.phase(), LinkPhase::Attached),
            LinkSide::Sender(_) => false,
        }
    }
}

impl CalledLink {
    /// What a disposer keeps of the link; none of a sender, which gives no deliveries.
    pub fn view(&self) -> Option<DisposerView>
        ensures { result ≡ view_of self.now.side }
    {
        self.side.view()
    }

    /// Gives deliveries a state in which they end, by the view that a disposer keeps: `Done`, or a `DispositionError` as
    /// `Receiver::dispose_by` says. A sender answers `IllegalState`. For want of memory the link is not known any more.
    pub fn dispose_by(
        &mut self,
        view: &DisposerView,
        disposal: Disposal,
        infos: &[DeliveryInfo],
    ) -> Result<LinkReply, AllocError>
        ensures state { OnOk result (self.new ≡ with_side (disposes_by view.now disposal infos.now self.old.side).side self.old) }
        ensures answer { IfOk result (λ r. r ≡ (disposes_by view.now disposal infos.now self.old.side).reply) }
    {
        self.side.dispose_by(view, disposal, infos)
    }

    /// Whether a delivery is settled as it is disposed of: not in `ReceiverSettleMode::Second`, where its sender settles first.
    pub fn settles(&self, info: &DeliveryInfo) -> bool
        ensures { result ≡ settles info.now self.now.side }
    {
        self.side.settles(info)
    }

    /// Whether a delivery is settled as it is given, as it is then accepted.
    pub fn settles_at_once(&self, info: &DeliveryInfo) -> bool
        ensures { result ≡ settles_at_once info.now self.now.side }
    {
        self.side.settles_at_once(info)
    }

    /// Whether Transfers that are read begin deliveries: the link is attached, and this end receives.
    pub fn is_receiving(&self) -> bool
        ensures { result ≡ is_receiving self.now.side }
    {
        self.side.is_receiving()
    }
}
