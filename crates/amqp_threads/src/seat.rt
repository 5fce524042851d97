//! The seats of a desk.
ghost use Rattle.std.specs.Prelude.{◌≡◌, ℕ, ◌+◌, ◌<◌, ◌≤◌, ◌^◌, ◌∷◌, ◌++◌, [], length, slice_get, slice_set, Some, OnErr, IfOk, IfErr, alloc_error, vec_len};
ghost use Rattle.amqp_delivery.specs.declared.calls.BookCall.TheVariants.{Register, Accept, Release, TakeOrders};
ghost use Rattle.amqp_delivery.specs.Step.{orders};
ghost use Rattle.book_history.specs.Receipts.{IsOf, HandsOut};
ghost use Rattle.amqp_threads.specs.Seats.{with_receipt, new_seat, calls_of, Seat};

use crate::desk::Desk;
use crate::error::DeskError;
use crate::locked::DeskName;
use amqp_delivery::{BookCall, DeliveryInfo, DisposerView, OrderList};
use book_history::Receipt;
use std::alloc::{AllocError, Global};
use std::marker::Model;
use std::mem;
use std::sync::Wait;
use std::sync::ledger::Share;

/// A seat at a desk, which makes calls and keeps their receipts.
#[derive(Drop)]
pub struct DeskSeat<L: DeskName> {
    number: u32,
    view: DisposerView,
    receipts: Vec<Receipt>,
    share: Share<L>,
    alloc: Global,
}

impl<L: DeskName> Model for DeskSeat<L> {
    ghost use Rattle.std.specs.Prelude.{◌≡◌, length};
    ghost use Rattle.amqp_threads.specs.Seats.{Seat};

    ghost Value = { Seat };

    ghost use Rattle.std.specs.Coded.{codes};
    ghost use Rattle.amqp_fields.specs.contracts.map.FieldMap as map;

    ghost coded = { Prim.hlevel (codes, map.the_row.coded) };

    ghost view = { λ a. record { number = a.number; view = a.view; receipts = a.receipts.items } };

    ghost invariant = { λ a. (a.share.parts ≡ 1) × (a.share.amount ≡ length a.receipts.items) };
}

impl<L: DeskName> DeskSeat<L> {
    pub(crate) fn new(alloc: Global, number: u32, view: DisposerView, share: Share<L>) -> Self
        requires { (share.parts ≡ 1) × (share.amount ≡ 0) }
        ensures { result ≡ new_seat view number }
    {
        DeskSeat {
            number,
            view,
            receipts: Vec::new(alloc),
            share,
            alloc,
        }
    }

    /// The number of the seat, from 0.
    pub fn number(&self) -> u32
        ensures { result ≡ self.now.number }
    {
        self.number
    }

    /// The receipts of the calls that the seat made, in their order.
    pub fn receipts(&self) -> &[Receipt]
        ensures { result.now ≡ self.now.receipts }
    {
        self.receipts.as_slice()
    }

    /// Puts a receipt in the place of the one with this index, and gives that one back. One that does not stand in the
    /// history is found when the desk is closed.
    pub fn replace_receipt(&mut self, index: usize, receipt: Receipt) -> Receipt
        requires { index < length self.old.receipts }
        ensures new { self.new ≡ record self.old { receipts = slice_set self.old.receipts index receipt } }
        ensures old { slice_get self.old.receipts index ≡ Some result }
    {
        mem::replace(&mut self.receipts[index], receipt)
    }

    /// What the seat counts of the ledger.
    pub(crate) fn into_share(self) -> Share<L>
        ensures parts { result.parts ≡ 1 }
        ensures amount { result.amount ≡ length self.receipts }
    {
        let DeskSeat {
            number: _,
            view: _,
            receipts: _,
            share,
            alloc: _,
        } = self;
        share
    }

    /// Makes a call under the lock.
    fn call<R: Wait>(
        &mut self,
        rt: &R,
        desk: &Desk<L>,
        call: &BookCall,
    ) -> Result<(Receipt, OrderList), DeskError>
        ensures made { IfOk result (λ r. self.new ≡ with_receipt self.old r.0) }
        ensures call { IfOk result (λ r. IsOf self.old.number call.now r.0) }
        ensures orders { IfOk result (λ r. HandsOut call.now r.0.entry.reply r.1.list) }
        ensures memory { OnErr result (self.new ≡ self.old) }
        ensures error { IfErr result (λ e. e ≡ DeskError.Memory alloc_error) }
    {
        self.receipts.reserve(1)?;
        let answered = desk
            .lock(rt)
            .make(self.alloc, self.number, call, &mut self.share)?;
        let pushed = self.receipts.push(answered.kept);
        prove!(pushed.is_ok());
        let _ = pushed;
        Ok((answered.receipt, answered.orders))
    }

    /// Enters a delivery in the book. The one error is want of memory, and nothing is changed then; the same holds for each
    /// call of a seat.
    pub fn register<R: Wait>(
        &mut self,
        rt: &R,
        desk: &Desk<L>,
        info: DeliveryInfo,
    ) -> Result<Receipt, DeskError>
        ensures made { IfOk result (λ r. self.new ≡ with_receipt self.old r) }
        ensures call { IfOk result (λ r. IsOf self.old.number (Register info) r) }
        ensures memory { OnErr result (self.new ≡ self.old) }
        ensures error { IfErr result (λ e. e ≡ DeskError.Memory alloc_error) }
    {
        let (receipt, _) = self.call(rt, desk, &BookCall::Register(info))?;
        Ok(receipt)
    }

    /// Gives a delivery the state Accepted, by the view that the seat keeps.
    pub fn accept<R: Wait>(
        &mut self,
        rt: &R,
        desk: &Desk<L>,
        info: &DeliveryInfo,
    ) -> Result<Receipt, DeskError>
        ensures made { IfOk result (λ r. self.new ≡ with_receipt self.old r) }
        ensures call { IfOk result (λ r. IsOf self.old.number (Accept self.old.view info.now) r) }
        ensures memory { OnErr result (self.new ≡ self.old) }
        ensures error { IfErr result (λ e. e ≡ DeskError.Memory alloc_error) }
    {
        let info = info.try_clone(self.alloc)?;
        let (receipt, _) = self.call(rt, desk, &BookCall::Accept(self.view, info))?;
        Ok(receipt)
    }

    /// Gives a delivery the state Released, by the view that the seat keeps.
    pub fn release<R: Wait>(
        &mut self,
        rt: &R,
        desk: &Desk<L>,
        info: &DeliveryInfo,
    ) -> Result<Receipt, DeskError>
        ensures made { IfOk result (λ r. self.new ≡ with_receipt self.old r) }
        ensures call { IfOk result (λ r. IsOf self.old.number (Release self.old.view info.now) r) }
        ensures memory { OnErr result (self.new ≡ self.old) }
        ensures error { IfErr result (λ e. e ≡ DeskError.Memory alloc_error) }
    {
        let info = info.try_clone(self.alloc)?;
        let (receipt, _) = self.call(rt, desk, &BookCall::Release(self.view, info))?;
        Ok(receipt)
    }

    /// Hands out the orders made since the last taking.
    pub fn take_orders<R: Wait>(
        &mut self,
        rt: &R,
        desk: &Desk<L>,
    ) -> Result<(Receipt, OrderList), DeskError>
        ensures made { IfOk result (λ r. self.new ≡ with_receipt self.old r.0) }
        ensures call { IfOk result (λ r. IsOf self.old.number TakeOrders r.0) }
        ensures orders { IfOk result (λ r. r.0.entry.reply ≡ orders r.1.list) }
        ensures memory { OnErr result (self.new ≡ self.old) }
        ensures error { IfErr result (λ e. e ≡ DeskError.Memory alloc_error) }
    {
        self.call(rt, desk, &BookCall::TakeOrders)
    }
}

/// The seats of a desk, in the order of their numbers.
#[derive(Drop)]
pub struct SeatList<L: DeskName> {
    seats: Vec<DeskSeat<L>>,
}

impl<L: DeskName> Model for SeatList<L> {
    ghost use Rattle.std.specs.Prelude.{List};
    ghost use Rattle.amqp_threads.specs.Seats.{Seat};

    ghost Value = { List Seat };

    ghost use Rattle.std.specs.Coded.{codes};
    ghost use Rattle.amqp_fields.specs.contracts.map.FieldMap as map;

    ghost coded = { Prim.hlevel (codes, map.the_row.coded) };

    ghost view = { λ a. a.seats.items };
}

impl<L: DeskName> SeatList<L> {
    /// These seats.
    pub fn new(seats: Vec<DeskSeat<L>>) -> Self
        ensures { result ≡ seats.items }
    {
        SeatList { seats }
    }

    /// The seats, lent.
    pub fn as_slice(&self) -> &[DeskSeat<L>]
        ensures { result.now ≡ self.now }
    {
        self.seats.as_slice()
    }

    /// The seats themselves.
    pub fn into_vec(self) -> Vec<DeskSeat<L>>
        ensures { result.items ≡ self }
    {
        let SeatList { seats } = self;
        seats
    }
}
