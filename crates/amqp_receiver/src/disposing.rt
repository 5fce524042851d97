//! How deliveries are settled (OASIS AMQP 1.0, part 2, sections 2.6.12 and 2.7.6).
ghost use Rattle.std.specs.Prelude.{◌≡◌, ◌∷◌, [], IfOk, OnOk};
ghost use Rattle.amqp_link.specs.Link as link;
ghost use Rattle.amqp_delivery.specs.Book.{view_of};
ghost use Rattle.amqp_delivery.specs.States.{accepted};
ghost use Rattle.amqp_termini.specs.TerminalState.{state_of_terminal};
ghost use Rattle.amqp_receiver.specs.Receiver.{seen, Answers};
ghost use Rattle.amqp_receiver.specs.Disposing.{last_of, frame_for, writing, written, is_refill, undrained, refusal_of, disposing, disposed_by, disposed, settles};

use crate::receiver::Receiver;
use amqp_composites::modes::{ReceiverSettleMode, Role};
use amqp_delivery::{BookReply, DeliveryInfo, DisposerView, Order, OrderList, copy_state};
use amqp_link::amqp_frames::LinkFrame;
use amqp_link::{DispositionError, link_flow};
use amqp_performatives::disposition::Disposition;
use amqp_termini::{Accepted, DeliveryState, TerminalDeliveryState};
use std::alloc::{AllocError, Global};
use std::slice;

fn last_of(first: u32, last: u32) -> Option<u32>
    ensures { result ≡ last_of first last }
{
    if first == last { None } else { Some(last) }
}

/// The frame that an order asks for.
fn frame_for(alloc: Global, handle: u32, order: &Order) -> Result<LinkFrame, AllocError>
    ensures { IfOk result (λ frame. link.body_of frame ≡ frame_for handle order.now) }
{
    match order {
        Order::Disposition {
            first,
            last,
            settled,
            state,
        } => {
            let state = copy_state(alloc, state)?;
            let disposition = Disposition {
                role: Role::Receiver,
                first: *first,
                last: last_of(*first, *last),
                settled: *settled,
                state: Some(state),
                batchable: false,
            };
            Ok(LinkFrame::Disposition(disposition, Vec::new(alloc)))
        }
        Order::Flow {
            delivery_count,
            credit,
        } => Ok(LinkFrame::Flow(link_flow(handle, *delivery_count, *credit, false))),
    }
}

/// Whether credit was given.
fn is_refill(reply: &BookReply) -> bool
    ensures { result ≡ is_refill reply.now }
{
    match reply {
        BookReply::Done { found: _, refilled } => *refilled,
        BookReply::Taken(_) => false,
        BookReply::Stale => false,
    }
}

fn refusal_of(reply: &BookReply) -> Option<DispositionError>
    ensures { result ≡ refusal_of reply.now }
{
    match reply {
        BookReply::Stale => Some(DispositionError::IllegalState),
        BookReply::Done { .. } => None,
        BookReply::Taken(_) => None,
    }
}

impl Receiver {
    /// Writes an order.
    fn say_order(&mut self, order: Order) -> Result<(), AllocError>
        ensures { OnOk result (seen self.new ≡ record (seen self.old) { link = link.saying (frame_for (seen self.old).link.own.handle order) (seen self.old).link }) }
    {
        self.link.make_room(1)?;
        let frame = frame_for(self.alloc, self.link.handle(), &order)?;
        self.link.say(frame);
        Ok(())
    }

    /// Writes orders, in order.
    pub(crate) fn say_orders(&mut self, orders: OrderList) -> Result<(), AllocError>
        ensures { OnOk result (seen self.new ≡ record (seen self.old) { link = writing orders.list (seen self.old).link }) }
    {
        let mut left = orders.into_vec().into_iter();
        while let Some(order) = left.next() {
            self.say_order(order)?;
        }
        Ok(())
    }

    /// Writes what the book has ordered.
    pub(crate) fn write_book(&mut self) -> Result<(), AllocError>
        ensures { OnOk result (seen self.new ≡ written (seen self.old)) }
    {
        let orders = self.book.take_orders();
        self.say_orders(orders)
    }

    /// Where credit was given the sender need not use it up.
    pub(crate) fn end_drain_if(&mut self, reply: &BookReply)
        ensures { seen self.new ≡ undrained reply.now (seen self.old) }
    {
        if is_refill(reply) {
            self.is_draining = false;
        }
    }

    fn dispose_in_book(
        &mut self,
        view: &DisposerView,
        infos: &[DeliveryInfo],
        state: DeliveryState,
    ) -> Result<(), DispositionError>
        ensures { Answers result (disposing view.now infos.now state (seen self.old)) (seen self.new) }
    {
        let reply = self.book.dispose_all(view, infos, state)?;
        self.end_drain_if(&reply);
        self.write_book()?;
        match refusal_of(&reply) {
            Some(error) => Err(error),
            None => Ok(()),
        }
    }

    /// Gives deliveries a state by the view that a disposer keeps: a Disposition for each run of those that are not settled is to be
    /// written, and a Flow where credit is due. `IllegalState` comes where the link is not attached, and where credit is due but the
    /// link has attached anew since the view was taken; `SessionStopped` where the session has stopped. For want of memory the
    /// receiver is not known any more.
    pub fn dispose_by(
        &mut self,
        view: &DisposerView,
        infos: &[DeliveryInfo],
        state: DeliveryState,
    ) -> Result<(), DispositionError>
        ensures { Answers result (disposed_by view.now infos.now state (seen self.old)) (seen self.new) }
    {
        if let Some(error) = self.link.disposal_refusal()? {
            return Err(error);
        }
        self.dispose_in_book(view, infos, state)
    }

    /// Whether a delivery is settled as it is disposed of: not in `ReceiverSettleMode::Second`, where its sender settles first.
    pub fn settles(&self, info: &DeliveryInfo) -> bool
        ensures { result ≡ settles info.now (seen self.now) }
    {
        let mode = info.rcv_settle_mode.unwrap_or(self.view().mode);
        matches!(mode, ReceiverSettleMode::First)
    }

    /// The view of the link as it is now, for a disposer.
    pub fn view(&self) -> DisposerView
        ensures { result ≡ view_of (seen self.now).book (seen self.now).link.own.handle }
    {
        self.book.view(self.link.handle())
    }

    /// Gives deliveries a state in which they end, with the same refusals as `dispose_by`.
    pub fn dispose_all(
        &mut self,
        infos: &[DeliveryInfo],
        state: TerminalDeliveryState,
    ) -> Result<(), DispositionError>
        ensures { Answers result (disposed infos.now (state_of_terminal state) (seen self.old)) (seen self.new) }
    {
        let view = self.view();
        self.dispose_by(&view, infos, DeliveryState::from(state))
    }

    /// Gives a delivery a state in which it ends, with the same refusals as `dispose_by`.
    pub fn dispose(
        &mut self,
        info: &DeliveryInfo,
        state: TerminalDeliveryState,
    ) -> Result<(), DispositionError>
        ensures { Answers result (disposed (info.now ∷ []) (state_of_terminal state) (seen self.old)) (seen self.new) }
    {
        self.dispose_all(slice::from_ref(info), state)
    }

    /// Accepts a delivery, with the same refusals as `dispose_by`.
    pub fn accept_delivery(&mut self, info: &DeliveryInfo) -> Result<(), DispositionError>
        ensures { Answers result (disposed (info.now ∷ []) accepted (seen self.old)) (seen self.new) }
    {
        self.dispose(info, TerminalDeliveryState::Accepted(Accepted {}))
    }
}
