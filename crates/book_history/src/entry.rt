//! Entries of a history, and receipts for them.
ghost use Rattle.std.specs.Prelude.{◌≡◌, IfOk};

use amqp_delivery::{BookCall, BookReply};
use std::alloc::{AllocError, Global};
use std::marker::Model;

/// One call of a book, with its reply.
pub struct HistoryEntry {
    /// The number of the seat that made the call, from 0.
    pub seat: u32,
    /// The call.
    pub call: BookCall,
    /// The reply.
    pub reply: BookReply,
}

// An entry is let go by a call, so that no caller sees what it holds.
impl Drop for HistoryEntry {
    fn drop(self) {
        let HistoryEntry {
            seat: _,
            call,
            reply,
        } = self;
        drop(call);
        drop(reply);
    }
}

impl Model for HistoryEntry {
    ghost use Rattle.amqp_delivery.specs.Step.{reply_of};
    ghost use Rattle.book_history.specs.History.{Event};

    ghost Value = { Event };

    ghost use Rattle.std.specs.Coded.{codes};
    ghost use Rattle.amqp_fields.specs.contracts.map.FieldMap as map;

    ghost coded = { Prim.hlevel (codes, map.the_row.coded) };

    ghost view = { λ a. record { seat = a.seat; call = a.call; reply = reply_of a.reply } };
}

/// Says that an entry stands at a place of a history.
pub struct Receipt {
    /// The place, from 0.
    pub place: u64,
    /// The entry.
    pub entry: HistoryEntry,
}

// A receipt is let go by a call, as an entry is.
impl Drop for Receipt {
    fn drop(self) {
        let Receipt { place: _, entry } = self;
        drop(entry);
    }
}

impl HistoryEntry {
    /// A copy; the one error is want of memory.
    pub fn try_clone(&self, alloc: Global) -> Result<HistoryEntry, AllocError>
        ensures { IfOk result (λ e. e ≡ self.now) }
    {
        let call = self.call.try_clone(alloc)?;
        let reply = self.reply.try_clone(alloc)?;
        Ok(HistoryEntry {
            seat: self.seat,
            call,
            reply,
        })
    }
}

impl Receipt {
    /// A copy; the one error is want of memory.
    pub fn try_clone(&self, alloc: Global) -> Result<Receipt, AllocError>
        ensures { IfOk result (λ r. r ≡ self.now) }
    {
        let entry = self.entry.try_clone(alloc)?;
        Ok(Receipt {
            place: self.place,
            entry,
        })
    }
}
