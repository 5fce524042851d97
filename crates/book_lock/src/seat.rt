//! The seats of a ticket desk.
ghost use Rattle.std.specs.Prelude.{◌≡◌, ◌<◌, ◌⊎◌, ◌∷◌, [], IfOk, IfErr, OnOk, OnErr};
ghost use Rattle.amqp_delivery.specs.declared.calls.BookCall.TheVariants.{Register, Accept, Release, TakeOrders};
ghost use Rattle.amqp_delivery.specs.Step.{orders};
ghost use Rattle.book_history.specs.Receipts.{IsOf, HandsOut};
ghost use Rattle.book_lock.specs.Begins.{Begins};
ghost use Rattle.book_lock.specs.Calls.{Idle};
ghost use Rattle.book_lock.specs.Plays.{longer};
ghost use Rattle.book_lock.specs.Seats.{Adds, HasOwn, Keeps, IsFull, IsLegal};

use crate::desk::TicketDesk;
use crate::error::TicketError;
use crate::note::TicketNote;
use crate::steps::{Place, compare, copy, join};
use crate::ticket_book::TicketName;
use crate::turns::run_turn;
use amqp_delivery::{BookCall, DeliveryInfo, DisposerView, OrderList};
use book_history::Receipt;
use std::alloc::{AllocError, Global};
use std::marker::Model;
use std::sync::Wait;

/// A seat at a ticket desk, which makes calls and keeps their receipts. It has seen a beginning of the history, in which its
/// calls stand, each once.
#[derive(Drop)]
pub struct TicketSeat<L: TicketName> {
    number: u32,
    view: DisposerView,
    receipts: Vec<Receipt>,
    pub(crate) place: Place<L>,
    alloc: Global,
}

impl<L: TicketName> Model for TicketSeat<L> {
    ghost use Rattle.std.specs.Prelude.{◌≡◌, ◌∷◌, []};
    ghost use Rattle.book_lock.specs.Calls.{Idle};
    ghost use Rattle.book_lock.specs.Seats.{Seat, HasOwn};

    ghost Value = { Seat };

    ghost use Rattle.std.specs.Coded.{codes};
    ghost use Rattle.amqp_fields.specs.contracts.map.FieldMap as map;

    ghost coded = { Prim.hlevel (codes, map.the_row.coded) };

    ghost view = { λ a. record { number = a.number; view = a.view; receipts = a.receipts.items; front = a.place.me.0.front; table = a.place.table_id } };

    ghost invariant = { λ a. Idle a.place.me × (a.place.me.0.numbers ≡ a.number ∷ []) × HasOwn a.number a.receipts.items a.place.me.0.front };
}

impl<L: TicketName> TicketSeat<L> {
    pub(crate) fn new(alloc: Global, number: u32, view: DisposerView, place: Place<L>) -> Self
        requires idle { Idle place.me }
        requires numbers { place.me.0.numbers ≡ number ∷ [] }
        requires front { place.me.0.front ≡ [] }
        ensures { result ≡ record { number = number; view = view; receipts = []; front = place.me.0.front; table = place.table_id } }
    {
        TicketSeat {
            number,
            view,
            receipts: Vec::new(alloc),
            place,
            alloc,
        }
    }

    /// The number of the seat, from 0.
    pub fn number(&self) -> u32
        ensures { result ≡ self.now.number }
    {
        self.number
    }

    /// The receipts of the calls that the seat made, in their order.
    pub fn receipts(&self) -> &[Receipt]
        ensures same { result.now ≡ self.now.receipts }
        ensures own { HasOwn self.now.number self.now.receipts self.now.front }
    {
        self.receipts.as_slice()
    }

    /// The seat's place at the lock.
    pub(crate) fn into_place(self) -> Place<L>
        ensures idle { Idle result.me }
        ensures numbers { result.me.0.numbers ≡ self.number ∷ [] }
        ensures front { result.me.0.front ≡ self.front }
        ensures table { result.table_id ≡ self.table }
        ensures own { HasOwn self.number self.receipts self.front }
    {
        let TicketSeat {
            number: _,
            view: _,
            receipts: _,
            place,
            alloc: _,
        } = self;
        place
    }

    /// Makes a call in a turn of its own.
    fn call<R: Wait>(
        &mut self,
        rt: &R,
        desk: &TicketDesk<L>,
        call: &BookCall,
    ) -> Result<(Receipt, OrderList), TicketError>
        requires table { self.old.table ≡ desk.now.table.shared.table_id }
        ensures made { IfOk result (λ r. Adds self.old self.new r.0) }
        ensures within { IfOk result (λ r. r.0.place < desk.now.calls) }
        ensures call { IfOk result (λ r. IsOf self.old.number call.now r.0) }
        ensures orders { IfOk result (λ r. HandsOut call.now r.0.entry.reply r.1.list) }
        ensures legal { OnOk result (IsLegal L.book self.new.front) }
        ensures error { OnErr result (Keeps self.old self.new) }
        ensures full { IfErr result (IsFull desk.now.calls) }
        ensures own { HasOwn self.new.number self.new.receipts self.new.front }
    {
        if self.receipts.reserve(1).is_err() {
            return Err(TicketError::Memory(AllocError));
        }
        let answered = match run_turn(
            rt,
            self.alloc,
            &desk.table.shared,
            &mut self.place,
            desk.calls(),
            self.number,
            call,
        ) {
            Ok(answered) => answered,
            Err(error) => return Err(error),
        };
        let pushed = self.receipts.push(answered.kept);
        prove!(pushed.is_ok());
        let _ = pushed;
        Ok((answered.receipt, answered.orders))
    }

    /// Enters a delivery in the book. An error makes no entry, and leaves the seat but for what it has seen; the same holds for
    /// each call of a seat.
    pub fn register<R: Wait>(
        &mut self,
        rt: &R,
        desk: &TicketDesk<L>,
        info: DeliveryInfo,
    ) -> Result<Receipt, TicketError>
        requires table { self.old.table ≡ desk.now.table.shared.table_id }
        ensures made { IfOk result (λ r. Adds self.old self.new r) }
        ensures within { IfOk result (λ r. r.place < desk.now.calls) }
        ensures call { IfOk result (λ r. IsOf self.old.number (Register info) r) }
        ensures legal { OnOk result (IsLegal L.book self.new.front) }
        ensures error { OnErr result (Keeps self.old self.new) }
        ensures full { IfErr result (IsFull desk.now.calls) }
        ensures own { HasOwn self.new.number self.new.receipts self.new.front }
    {
        match self.call(rt, desk, &BookCall::Register(info)) {
            Ok((receipt, _)) => Ok(receipt),
            Err(error) => Err(error),
        }
    }

    #[tactic(auto, using(crate::proofs::Seating::keeps_same))]
    /// Gives a delivery the state Accepted, by the view that the seat keeps.
    pub fn accept<R: Wait>(
        &mut self,
        rt: &R,
        desk: &TicketDesk<L>,
        info: &DeliveryInfo,
    ) -> Result<Receipt, TicketError>
        requires table { self.old.table ≡ desk.now.table.shared.table_id }
        ensures made { IfOk result (λ r. Adds self.old self.new r) }
        ensures within { IfOk result (λ r. r.place < desk.now.calls) }
        ensures call { IfOk result (λ r. IsOf self.old.number (Accept self.old.view info.now) r) }
        ensures legal { OnOk result (IsLegal L.book self.new.front) }
        ensures error { OnErr result (Keeps self.old self.new) }
        ensures full { IfErr result (IsFull desk.now.calls) }
        ensures own { HasOwn self.new.number self.new.receipts self.new.front }
    {
        let Ok(info) = info.try_clone(self.alloc) else {
            return Err(TicketError::Memory(AllocError));
        };
        match self.call(rt, desk, &BookCall::Accept(self.view, info)) {
            Ok((receipt, _)) => Ok(receipt),
            Err(error) => Err(error),
        }
    }

    #[tactic(auto, using(crate::proofs::Seating::keeps_same))]
    /// Gives a delivery the state Released, by the view that the seat keeps.
    pub fn release<R: Wait>(
        &mut self,
        rt: &R,
        desk: &TicketDesk<L>,
        info: &DeliveryInfo,
    ) -> Result<Receipt, TicketError>
        requires table { self.old.table ≡ desk.now.table.shared.table_id }
        ensures made { IfOk result (λ r. Adds self.old self.new r) }
        ensures within { IfOk result (λ r. r.place < desk.now.calls) }
        ensures call { IfOk result (λ r. IsOf self.old.number (Release self.old.view info.now) r) }
        ensures legal { OnOk result (IsLegal L.book self.new.front) }
        ensures error { OnErr result (Keeps self.old self.new) }
        ensures full { IfErr result (IsFull desk.now.calls) }
        ensures own { HasOwn self.new.number self.new.receipts self.new.front }
    {
        let Ok(info) = info.try_clone(self.alloc) else {
            return Err(TicketError::Memory(AllocError));
        };
        match self.call(rt, desk, &BookCall::Release(self.view, info)) {
            Ok((receipt, _)) => Ok(receipt),
            Err(error) => Err(error),
        }
    }

    /// Hands out the orders made since the last taking.
    pub fn take_orders<R: Wait>(
        &mut self,
        rt: &R,
        desk: &TicketDesk<L>,
    ) -> Result<(Receipt, OrderList), TicketError>
        requires table { self.old.table ≡ desk.now.table.shared.table_id }
        ensures made { IfOk result (λ r. Adds self.old self.new r.0) }
        ensures within { IfOk result (λ r. r.0.place < desk.now.calls) }
        ensures call { IfOk result (λ r. IsOf self.old.number TakeOrders r.0) }
        ensures orders { IfOk result (λ r. r.0.entry.reply ≡ orders r.1.list) }
        ensures legal { OnOk result (IsLegal L.book self.new.front) }
        ensures error { OnErr result (Keeps self.old self.new) }
        ensures full { IfErr result (IsFull desk.now.calls) }
        ensures own { HasOwn self.new.number self.new.receipts self.new.front }
    {
        self.call(rt, desk, &BookCall::TakeOrders)
    }

    /// A note of what this seat has seen, for another seat. It takes no memory.
    pub fn note(&mut self, desk: &TicketDesk<L>) -> TicketNote<L>
        requires { self.old.table ≡ desk.now.table.shared.table_id }
        ensures front { result.front ≡ self.old.front }
        ensures table { result.table ≡ self.old.table }
        ensures same { self.new ≡ self.old }
    {
        TicketNote::new(copy(&desk.table.shared, &mut self.place))
    }

    /// Takes in a note of another seat. One of the two had seen what the other had, and perhaps more; the seat has then seen the longer
    /// of both.
    pub fn meet(&mut self, desk: &TicketDesk<L>, note: TicketNote<L>)
        requires table { self.old.table ≡ desk.now.table.shared.table_id }
        requires note { note.table ≡ desk.now.table.shared.table_id }
        ensures keeps { Keeps self.old self.new }
        ensures told { Begins note.front self.new.front }
        ensures longer { self.new.front ≡ longer self.old.front note.front }
        ensures one { Begins self.old.front note.front ⊎ Begins note.front self.old.front }
        ensures own { HasOwn self.new.number self.new.receipts self.new.front }
    {
        join(&desk.table.shared, &mut self.place, note.into_place());
        compare(&desk.table.shared, &mut self.place);
    }
}
