//! Calls of a book as values, and its answers.
ghost use Rattle.std.specs.Prelude.{◌≡◌, IfOk};
ghost use Rattle.amqp_delivery.specs.Step.{reply_of};

use crate::info::{DeliveryInfo, DisposerView};
use crate::orders::OrderList;
use std::alloc::{AllocError, Global};

/// A call of a book, as a history keeps it.
#[derive(Debug)]
pub enum BookCall {
    /// Enters a delivery.
    Register(DeliveryInfo),
    /// Gives a delivery the state Accepted.
    Accept(DisposerView, DeliveryInfo),
    /// Gives a delivery the state Released.
    Release(DisposerView, DeliveryInfo),
    /// Hands out the orders.
    TakeOrders,
}

// A call is let go by a call, so that no caller sees what it holds.
impl Drop for BookCall {
    fn drop(self) {
        match self {
            BookCall::Register(info) => drop(info),
            BookCall::Accept(_, info) => drop(info),
            BookCall::Release(_, info) => drop(info),
            BookCall::TakeOrders => {}
        }
    }
}

impl BookCall {
    /// A copy; the one error is want of memory.
    pub fn try_clone(&self, alloc: Global) -> Result<Self, AllocError>
        ensures { IfOk result (λ c. c ≡ self.now) }
    {
        match self {
            BookCall::Register(info) => Ok(BookCall::Register(info.try_clone(alloc)?)),
            BookCall::Accept(view, info) => Ok(BookCall::Accept(*view, info.try_clone(alloc)?)),
            BookCall::Release(view, info) => Ok(BookCall::Release(*view, info.try_clone(alloc)?)),
            BookCall::TakeOrders => Ok(BookCall::TakeOrders),
        }
    }
}

/// What a book answers.
#[derive(Debug)]
pub enum BookReply {
    /// The call was made.
    Done {
        /// How many of the named deliveries were unsettled.
        found: u32,
        /// Whether credit was given anew.
        refilled: bool,
    },
    /// The orders that were handed out.
    Taken(OrderList),
    /// The call was made, but the credit that was due is not given: the link has attached anew since the disposer was made.
    Stale,
}

// A reply is let go by a call, so that no caller sees what it holds.
impl Drop for BookReply {
    fn drop(self) {
        match self {
            BookReply::Done {
                found: _,
                refilled: _,
            } => {}
            BookReply::Taken(orders) => drop(orders),
            BookReply::Stale => {}
        }
    }
}

impl BookReply {
    /// A copy, with the same orders; the one error is want of memory.
    pub fn try_clone(&self, alloc: Global) -> Result<Self, AllocError>
        ensures { IfOk result (λ r. reply_of r ≡ reply_of self.now) }
    {
        match self {
            BookReply::Done { found, refilled } => Ok(BookReply::Done {
                found: *found,
                refilled: *refilled,
            }),
            BookReply::Taken(orders) => Ok(BookReply::Taken(orders.try_clone(alloc)?)),
            BookReply::Stale => Ok(BookReply::Stale),
        }
    }
}
