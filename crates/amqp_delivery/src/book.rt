//! The book.
ghost use Rattle.std.specs.Prelude.{◌≡◌, ℕ, false, Some, ◌+◌, ◌-◌, ◌*◌, ◌^◌, ◌<◌, ◌≤◌, ◌↔◌, IsTrue, is_some, length, slice_get, OnOk, OnErr, IfOk};
ghost use Rattle.std.specs.Option.{option_map, option_copied};
ghost use Rattle.amqp_delivery.specs.States.{IsPlain};
ghost use Rattle.amqp_delivery.specs.Search.{IsFirstRun};
ghost use Rattle.amqp_delivery.specs.Book.{empty_book, with_order, registered, disposed, settled, refill, one_if, found_in, state_at, with_credit, restarted, completed, drained_by, attached, taken, without, recorded, view_of, spare, disposed_all, walked, joined, closed, open_runs, runs_of};

use crate::calls::BookReply;
use crate::copies::Copies;
use crate::entry::Kept;
use crate::info::{CreditMode, DeliveryInfo, DisposerView};
use crate::orders::{Order, OrderList};
use crate::ranges::RangeList;
use crate::run::{Run, is_consecutive, is_same_mode};
use crate::states::plain_copy;
use crate::steps::Steps;
use amqp_data::Binary;
use amqp_termini::DeliveryState;
use amqp_termini::amqp_composites::modes::ReceiverSettleMode;
use indexmap::IndexMap;
use std::alloc::{AllocError, Global};
use std::marker::Model;
use std::mem;
use std::sync::ledger::Ledger;

/// The unsettled deliveries of a receiver, its credit, and what it has to write of them. No call scans the deliveries:
/// the work of each is that of a look-up by tag for each delivery that it names.
pub struct BookState {
    mode: ReceiverSettleMode,
    credit_mode: CreditMode,
    entries: IndexMap<Binary, Kept>,
    processed: u32,
    credit: u32,
    delivery_count: u32,
    attachment: u64,
    orders: OrderList,
    ranges: RangeList,
    alloc: Global,
}

// A book is let go by a call, so that no caller sees what it holds.
impl Drop for BookState {
    fn drop(self) {
        let BookState {
            mode: _,
            credit_mode: _,
            entries,
            processed: _,
            credit: _,
            delivery_count: _,
            attachment: _,
            orders,
            ranges,
            alloc: _,
        } = self;
        drop(entries);
        drop(orders);
        drop(ranges);
    }
}

impl Model for BookState {
    ghost use Rattle.amqp_delivery.specs.Book.{Shelf};

    ghost Value = { Shelf };

    ghost use Rattle.std.specs.Coded.{codes};
    ghost use Rattle.amqp_termini.specs.amqp_fields.contracts.map.FieldMap as map;

    ghost coded = { Prim.hlevel (codes, map.the_row.coded) };

    ghost view = { λ a. record {
      book = record { mode = a.mode; credit_mode = a.credit_mode; entries = a.entries.entries; processed = a.processed; credit = a.credit; delivery_count = a.delivery_count; attachment = a.attachment; orders = a.orders.list };
      room = a.orders.room;
    } };

    ghost use Rattle.std.specs.Prelude.{◌≡◌};
    ghost use Rattle.amqp_delivery.specs.Book.{pairs_of};

    ghost invariant = { λ a. a.ranges.pairs ≡ pairs_of a.entries.entries };
}

impl BookState {
    /// A book without deliveries, for a link of that settle mode; takes no memory.
    pub fn new(
        alloc: Global,
        link_mode: ReceiverSettleMode,
        credit_mode: CreditMode,
        credit: u32,
    ) -> Self
        ensures { result ≡ record { book = empty_book link_mode credit_mode credit; room = 0 } }
    {
        BookState {
            mode: link_mode,
            credit_mode,
            entries: IndexMap::new(alloc),
            processed: 0,
            credit,
            delivery_count: 0,
            attachment: 0,
            orders: OrderList::new(alloc),
            ranges: RangeList::new(alloc),
            alloc,
        }
    }

    /// Makes room for the orders of so many further disposals; the one error is want of memory.
    pub fn reserve(&mut self, calls: usize) -> Result<(), AllocError>
        ensures book { self.new.book ≡ self.old.book }
        ensures spare { OnOk result (calls ≤ spare self.new) }
        ensures kept { spare self.old ≤ spare self.new }
    {
        let orders = calls.checked_mul(2).ok_or(AllocError)?;
        self.orders.reserve(orders)
    }

    #[tactic(auto, using(crate::proofs::Keeping::kept_new, crate::proofs::Keeping::kept_again, crate::proofs::Keeping::kept_count))]
    /// Enters a delivery as unsettled, in the place of one of the same tag; the one error is want of memory.
    pub fn register(&mut self, info: DeliveryInfo) -> Result<BookReply, AllocError>
        ensures book { OnOk result (self.new.book ≡ registered self.old.book info) }
        ensures reply { IfOk result (λ r. r ≡ BookReply.Done 0 false) }
        ensures memory { OnErr result (self.new.book ≡ self.old.book) }
        ensures spare { spare self.new ≡ spare self.old }
    {
        let DeliveryInfo {
            delivery_id,
            delivery_tag,
            rcv_settle_mode: _,
        } = info;
        let kept = Kept {
            state: None,
            attachment: self.attachment,
            number: delivery_id,
        };
        let (attachment, number) = kept.pair();
        self.ranges.reserve(self.entries.len())?;
        if let Some(before) = self.entries.insert(delivery_tag, kept)? {
            let (attachment, number) = before.pair();
            self.ranges.remove(attachment, number);
        }
        self.ranges.insert(attachment, number);
        Ok(BookReply::Done {
            found: 0,
            refilled: false,
        })
    }

    /// Gives a delivery its state (OASIS AMQP 1.0, part 2, section 2.6.12), and gives credit anew where it is due. Takes no memory.
    pub fn dispose(
        &mut self,
        view: &DisposerView,
        info: &DeliveryInfo,
        state: DeliveryState,
    ) -> BookReply
        requires room { 0 < spare self.old }
        requires plain { IsPlain state }
        ensures book { self.new.book ≡ (disposed self.old.book view.now info.now state).book }
        ensures reply { result ≡ (disposed self.old.book view.now info.now state).reply }
        ensures spare { spare self.old ≤ spare self.new + 1 }
    {
        let found = self.settle(view, info, state);
        self.processed = self.processed.saturating_add(1);
        self.refill(view, found)
    }

    /// Gives each of the deliveries the state, with one Disposition for each run of unsettled ones; a delivery that is not
    /// unsettled breaks no run. The one error is want of memory, before anything is changed.
    pub fn dispose_all(
        &mut self,
        view: &DisposerView,
        infos: &[DeliveryInfo],
        state: DeliveryState,
    ) -> Result<BookReply, AllocError>
        ensures book { OnOk result (self.new.book ≡ (disposed_all self.old.book view.now infos.now state).book) }
        ensures reply { IfOk result (λ r. r ≡ (disposed_all self.old.book view.now infos.now state).reply) }
        ensures memory { OnErr result (self.new.book ≡ self.old.book) }
        ensures spare { spare self.old ≤ spare self.new }
    {
        let count = infos.len().checked_mul(2).ok_or(AllocError)?;
        let mut copies = Copies::new(self.alloc, state, count)?;
        let room = self
            .orders
            .room()
            .checked_add(infos.len())
            .and_then(|n| n.checked_add(1))
            .ok_or(AllocError)?;
        self.orders.reserve(room)?;
        let mut run = None;
        let mut found = 0;
        for info in infos {
            (run, found) = self.walk(run, found, view, info, &mut copies);
        }
        self.close(run, &mut copies);
        Ok(self.refill(view, found))
    }

    #[tactic(auto, using(crate::proofs::Keeping::kept_without, crate::proofs::Keeping::kept_stated))]
    fn walk(
        &mut self,
        run: Option<Run>,
        found: u32,
        view: &DisposerView,
        info: &DeliveryInfo,
        copies: &mut Copies,
    ) -> (Option<Run>, u32)
        requires room { open_runs run < self.old.room }
        requires copies { 1 + open_runs run < copies.old.count }
        ensures walk { record { book = self.new.book; run = result.0; found = result.1 } ≡ walked view.now copies.old.of (record { book = self.old.book; run = run; found = found }) info.now }
        ensures of { copies.new.of ≡ copies.old.of }
        ensures count { copies.old.count + open_runs result.0 ≤ copies.new.count + 2 + open_runs run }
        ensures room { self.old.room + open_runs result.0 ≤ self.new.room + 1 + open_runs run }
    {
        let mode = info.rcv_settle_mode.unwrap_or(view.mode);
        self.processed = self.processed.saturating_add(1);
        match mode {
            ReceiverSettleMode::First => {
                let Some(kept) = self.entries.swap_remove(&info.delivery_tag) else {
                    return (run, found);
                };
                let (attachment, number) = kept.pair();
                self.ranges.remove(attachment, number);
            }
            ReceiverSettleMode::Second => {
                let Some(kept) = self.entries.get_mut(&info.delivery_tag) else {
                    return (run, found);
                };
                kept.set_state(copies.take());
            }
        }
        let next = self.join(run, mode, info.delivery_id, copies);
        (Some(next), found.saturating_add(1))
    }

    fn join(
        &mut self,
        run: Option<Run>,
        mode: ReceiverSettleMode,
        number: u32,
        copies: &mut Copies,
    ) -> Run
        requires room { open_runs run ≤ self.old.room }
        requires copies { open_runs run ≤ copies.old.count }
        ensures walk { (found : ℕ) → record { book = self.new.book; run = Some result; found = found } ≡ joined run self.old.book mode number copies.old.of found }
        ensures of { copies.new.of ≡ copies.old.of }
        ensures count { copies.old.count ≤ copies.new.count + open_runs run }
        ensures room { self.old.room ≤ self.new.room + open_runs run }
    {
        if let Some(open) = run {
            if is_same_mode(open.mode, mode) && is_consecutive(open.last, number) {
                return Run {
                    first: open.first,
                    last: number,
                    mode,
                };
            }
        }
        self.close(run, copies);
        Run {
            first: number,
            last: number,
            mode,
        }
    }

    fn close(&mut self, run: Option<Run>, copies: &mut Copies)
        requires room { open_runs run ≤ self.old.room }
        requires copies { open_runs run ≤ copies.old.count }
        ensures book { self.new.book ≡ closed run copies.old.of self.old.book }
        ensures of { copies.new.of ≡ copies.old.of }
        ensures count { copies.old.count ≤ copies.new.count + open_runs run }
        ensures room { self.old.room ≤ self.new.room + open_runs run }
    {
        if let Some(run) = run {
            self.orders.add(Order::Disposition {
                first: run.first,
                last: run.last,
                settled: matches!(run.mode, ReceiverSettleMode::First),
                state: copies.take(),
            });
        }
    }

    #[tactic(auto, using(crate::proofs::Keeping::kept_without, crate::proofs::Keeping::kept_stated))]
    fn settle(&mut self, view: &DisposerView, info: &DeliveryInfo, state: DeliveryState) -> u32
        requires room { 0 < self.old.room }
        requires plain { IsPlain state }
        ensures book { self.new.book ≡ settled self.old.book view.now info.now state }
        ensures found { result ≡ one_if (found_in self.old.book info.now.delivery_tag) }
        ensures room { self.old.room ≤ self.new.room + 1 }
    {
        let mode = info.rcv_settle_mode.unwrap_or(view.mode);
        match mode {
            ReceiverSettleMode::First => {
                let Some(kept) = self.entries.swap_remove(&info.delivery_tag) else {
                    return 0;
                };
                let (attachment, number) = kept.pair();
                self.ranges.remove(attachment, number);
                self.order(info, true, state);
            }
            ReceiverSettleMode::Second => {
                let Some(kept) = self.entries.get_mut(&info.delivery_tag) else {
                    return 0;
                };
                kept.set_state(plain_copy(&state));
                self.order(info, false, state);
            }
        }
        1
    }

    fn order(&mut self, info: &DeliveryInfo, settled: bool, state: DeliveryState)
        requires { 0 < self.old.room }
        ensures book { self.new.book ≡ with_order self.old.book (Order.Disposition info.now.delivery_id info.now.delivery_id settled state) }
        ensures room { self.old.room ≤ self.new.room + 1 }
    {
        self.orders.add(Order::Disposition {
            first: info.delivery_id,
            last: info.delivery_id,
            settled,
            state,
        });
    }

    fn refill(&mut self, view: &DisposerView, found: u32) -> BookReply
        requires room { 0 < self.old.room }
        ensures book { self.new.book ≡ (refill view.now.credit_mode self.old.book view.now.attachment found).book }
        ensures reply { result ≡ (refill view.now.credit_mode self.old.book view.now.attachment found).reply }
        ensures room { self.old.room ≤ self.new.room + 1 }
    {
        let CreditMode::Auto(maximum) = view.credit_mode else {
            return BookReply::Done {
                found,
                refilled: false,
            };
        };
        if self.processed < maximum / 2 {
            return BookReply::Done {
                found,
                refilled: false,
            };
        }
        if self.attachment != view.attachment {
            return BookReply::Stale;
        }
        self.credit = maximum;
        self.processed = 0;
        self.orders.add(Order::Flow {
            delivery_count: self.delivery_count,
            credit: maximum,
        });
        BookReply::Done {
            found,
            refilled: true,
        }
    }

    /// Sets the credit mode, and nothing else. Takes no memory.
    pub fn set_mode(&mut self, mode: CreditMode)
        ensures book { self.new.book ≡ record self.old.book { credit_mode = mode } }
        ensures spare { spare self.new ≡ spare self.old }
    {
        self.credit_mode = mode;
    }

    /// Sets the credit, which `CreditMode::Auto` then keeps up, and begins to count anew. Takes no memory.
    pub fn set_credit(&mut self, credit: u32)
        ensures book { self.new.book ≡ with_credit self.old.book credit }
        ensures spare { spare self.new ≡ spare self.old }
    {
        self.credit = credit;
        self.processed = 0;
        if let CreditMode::Auto(_) = self.credit_mode {
            self.credit_mode = CreditMode::Auto(credit);
        }
    }

    /// Begins to count anew, as a drain does. Takes no memory.
    pub fn restart(&mut self)
        ensures book { self.new.book ≡ restarted self.old.book }
        ensures spare { spare self.new ≡ spare self.old }
    {
        self.processed = 0;
    }

    /// Counts a delivery that came, and says whether there was credit for it. Takes no memory.
    pub fn complete(&mut self) -> bool
        ensures book { self.new.book ≡ completed self.old.book }
        ensures credit { IsTrue result ↔ (0 < self.old.book.credit) }
        ensures spare { spare self.new ≡ spare self.old }
    {
        self.delivery_count = self.delivery_count.wrapping_add(1);
        if self.credit == 0 {
            return false;
        }
        self.credit -= 1;
        true
    }

    /// So much credit was drained (part 2, section 2.6.7). Takes no memory.
    pub fn drained(&mut self, amount: u32)
        ensures book { self.new.book ≡ drained_by self.old.book amount }
        ensures spare { spare self.new ≡ spare self.old }
    {
        self.delivery_count = self.delivery_count.wrapping_add(amount);
        self.credit = self.credit.saturating_sub(amount);
    }

    /// The link has attached anew, with that delivery-count of its sender; it has no credit. Takes no memory.
    pub fn attach(&mut self, delivery_count: u32)
        ensures book { self.new.book ≡ attached self.old.book delivery_count }
        ensures spare { spare self.new ≡ spare self.old }
    {
        self.attachment = self.attachment.saturating_add(1);
        self.delivery_count = delivery_count;
        self.credit = 0;
    }

    /// Hands out the orders made since the last taking, in order, with the room reserved for more. Takes no memory.
    pub fn take_orders(&mut self) -> OrderList
        ensures book { self.new.book ≡ taken self.old.book }
        ensures orders { result.list ≡ self.old.book.orders }
        ensures spare { spare self.new ≡ 0 }
    {
        mem::replace(&mut self.orders, OrderList::new(self.alloc))
    }

    /// The orders not yet handed out, lent.
    pub fn orders(&self) -> &OrderList
        ensures { result.now.list ≡ self.now.book.orders }
    {
        &self.orders
    }

    #[tactic(auto, using(crate::proofs::Keeping::kept_without))]
    /// Takes the delivery of that tag out, and says whether it was unsettled. Takes no memory.
    pub fn forget(&mut self, tag: &Binary) -> bool
        ensures book { self.new.book ≡ without self.old.book tag.now }
        ensures found { result ≡ is_some (found_in self.old.book tag.now) }
        ensures spare { spare self.new ≡ spare self.old }
    {
        let Some(kept) = self.entries.swap_remove(tag) else {
            return false;
        };
        let (attachment, number) = kept.pair();
        self.ranges.remove(attachment, number);
        true
    }

    #[tactic(auto, using(crate::proofs::Keeping::kept_stated))]
    /// Keeps a state of the delivery of that tag, and says whether it was unsettled. Takes no memory.
    pub fn record(&mut self, tag: &Binary, state: DeliveryState) -> bool
        ensures book { self.new.book ≡ recorded self.old.book tag.now state }
        ensures found { result ≡ is_some (found_in self.old.book tag.now) }
        ensures spare { spare self.new ≡ spare self.old }
    {
        match self.entries.get_mut(tag) {
            Some(kept) => {
                kept.set_state(state);
                true
            }
            None => false,
        }
    }

    /// What a disposer keeps of the book. Takes no memory.
    pub fn view(&self, handle: u32) -> DisposerView
        ensures { result ≡ view_of self.now.book handle }
    {
        DisposerView {
            attachment: self.attachment,
            mode: self.mode,
            credit_mode: self.credit_mode,
            handle,
        }
    }

    /// The number of unsettled deliveries.
    pub fn len(&self) -> usize
        ensures { result ≡ length self.now.book.entries }
    {
        self.entries.len()
    }

    /// The tag of the unsettled delivery at a place, below `len`. A place stays a delivery's until one is taken out.
    pub fn tag_at(&self, place: usize) -> Option<&Binary>
        ensures { option_copied result ≡ option_map (λ p. p.0) (slice_get self.now.book.entries place) }
    {
        let (tag, _) = self.entries.get_index(place)?;
        Some(tag)
    }

    /// What was said of the unsettled delivery at a place, if anything was.
    pub fn state_at(&self, place: usize) -> Option<&DeliveryState>
        ensures { option_copied result ≡ state_at self.now.book place }
    {
        let (_, kept) = self.entries.get_index(place)?;
        kept.state.as_ref()
    }

    /// How many deliveries were disposed of since credit was last given, up to 2^32 - 1.
    pub fn processed(&self) -> u32
        ensures { result ≡ self.now.book.processed }
    {
        self.processed
    }

    /// How many more deliveries the sender may send.
    pub fn credit(&self) -> u32
        ensures { result ≡ self.now.book.credit }
    {
        self.credit
    }

    /// The deliveries that the link has carried, modulo 2^32.
    pub fn delivery_count(&self) -> u32
        ensures { result ≡ self.now.book.delivery_count }
    {
        self.delivery_count
    }

    /// The number of ranges that the unsettled deliveries make: runs of one attachment with numbers in a row. Takes no memory.
    pub fn ranges(&self) -> usize
        ensures { result ≡ length (runs_of self.now.book) }
    {
        self.ranges.len()
    }

    /// The position of the first range that holds that attachment and number; none exactly where none does. It looks at one
    /// range in each step, and with n ranges in so many steps k that 2^k is at most 2 n + 1. Takes no memory.
    pub fn find_range<L: Ledger>(
        &self,
        attachment: u64,
        number: u32,
        steps: &mut Steps<L>,
    ) -> Option<u64>
        ensures found { IsFirstRun (runs_of self.now.book) attachment number result }
        ensures cost { 2 ^ (steps.new - steps.old) ≤ 2 * length (runs_of self.now.book) + 1 }
    {
        self.ranges.find(attachment, number, steps)
    }
}
