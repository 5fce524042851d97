//! A receiver whose deliveries are settled apart from it: its book is taken, and it writes what is ordered (OASIS AMQP 1.0, part 2,
//! sections 2.6.7 and 2.6.12).
ghost use Rattle.std.specs.Prelude.{◌≡◌};
ghost use Rattle.amqp_receiver.specs.Receiver.{seen, Answers};
ghost use Rattle.amqp_receiver.specs.Sharing.{is_flow, gives_credit, undrained_for, without_book, orders_written};

use crate::receiver::Receiver;
use amqp_delivery::{BookState, CreditMode, Order, OrderList};
use amqp_link::FlowError;
use std::mem;

fn is_flow(order: &Order) -> bool
    ensures { result ≡ is_flow order.now }
{
    match order {
        Order::Disposition { .. } => false,
        Order::Flow { .. } => true,
    }
}

/// Whether one of the orders gives credit.
fn gives_credit(orders: &[Order]) -> bool
    ensures { result ≡ gives_credit orders.now }
{
    orders.iter().any(|order| is_flow(order))
}

impl Receiver {
    /// Gives away the book of its deliveries and its credit. One without deliveries and without credit takes its place, which is not
    /// refilled.
    pub fn take_book(&mut self) -> BookState
        ensures book { result.book ≡ (seen self.old).book }
        ensures state { seen self.new ≡ without_book (seen self.old) }
    {
        let empty = BookState::new(self.alloc, self.book.view(0).mode, CreditMode::Manual, 0);
        mem::replace(&mut self.book, empty)
    }

    /// Where credit is given the sender need not use it up.
    fn end_drain_for(&mut self, gives_credit: bool)
        ensures { seen self.new ≡ undrained_for gives_credit (seen self.old) }
    {
        if gives_credit {
            self.is_draining = false;
        }
    }

    /// Writes the orders of a book that was taken: the frame of each is to be written, in order. `IllegalState` comes where the link is
    /// not attached, then `SessionStopped` where the session has stopped. For want of memory the receiver is not known any more.
    pub fn write_orders(&mut self, orders: OrderList) -> Result<(), FlowError>
        ensures { Answers result (orders_written orders.list (seen self.old)) (seen self.new) }
    {
        if let Some(error) = self.link.disposal_refusal()? {
            return Err(error);
        }
        self.end_drain_for(gives_credit(orders.as_slice()));
        self.say_orders(orders)?;
        Ok(())
    }
}
