//! What a receiver has to write for its book.
ghost use Rattle.std.specs.Prelude.{◌≡◌, ◌+◌, ◌<◌, ◌≤◌, ◌++◌, ◌∷◌, [], length, OnOk, IfOk};

use crate::states::copy_state;
use amqp_termini::DeliveryState;
use std::alloc::{AllocError, Global};
use std::marker::Model;

/// A frame that is to be written.
#[derive(Debug)]
pub enum Order {
    /// A Disposition (OASIS AMQP 1.0, part 2, section 2.7.6).
    Disposition {
        /// The number of the first delivery.
        first: u32,
        /// The number of the last delivery.
        last: u32,
        /// Whether they are settled.
        settled: bool,
        /// The state that they are given.
        state: DeliveryState,
    },
    /// A Flow of the link (part 2, section 2.7.4).
    Flow {
        /// The deliveries that the link has carried, modulo 2^32.
        delivery_count: u32,
        /// How many more the sender may send.
        credit: u32,
    },
}

// An order is let go by a call, so that no caller sees what its state holds.
impl Drop for Order {
    fn drop(self) {
        match self {
            Order::Disposition {
                first: _,
                last: _,
                settled: _,
                state,
            } => drop(state),
            Order::Flow {
                delivery_count: _,
                credit: _,
            } => {}
        }
    }
}

impl Order {
    /// A copy; the one error is want of memory.
    pub fn try_clone(&self, alloc: Global) -> Result<Self, AllocError>
        ensures { IfOk result (λ o. o ≡ self.now) }
    {
        match self {
            Order::Disposition {
                first,
                last,
                settled,
                state,
            } => {
                let state = copy_state(alloc, state)?;
                Ok(Order::Disposition {
                    first: *first,
                    last: *last,
                    settled: *settled,
                    state,
                })
            }
            Order::Flow {
                delivery_count,
                credit,
            } => Ok(Order::Flow {
                delivery_count: *delivery_count,
                credit: *credit,
            }),
        }
    }
}

/// Orders, in the order in which they were made, and room for more.
#[derive(Debug)]
pub struct OrderList {
    orders: Vec<Order>,
}

// The list is let go by a call, so that no caller sees what it holds.
impl Drop for OrderList {
    fn drop(self) {
        let OrderList { orders } = self;
        drop(orders);
    }
}

impl Model for OrderList {
    ghost use Rattle.std.specs.Prelude.{vec_len, vec_capacity, ◌-◌};
    ghost use Rattle.amqp_delivery.specs.Orders.{Orders};

    ghost Value = { Orders };

    ghost use Rattle.std.specs.Coded.{codes};
    ghost use Rattle.amqp_termini.specs.amqp_fields.contracts.map.FieldMap as map;

    ghost coded = { Prim.hlevel (codes, map.the_row.coded) };

    ghost view = { λ a. record { list = a.orders.items; room = vec_capacity a.orders - vec_len a.orders } };
}

impl OrderList {
    /// No orders, and no room; takes no memory.
    pub fn new(alloc: Global) -> Self
        ensures { result ≡ record { list = []; room = 0 } }
    {
        OrderList {
            orders: Vec::new(alloc),
        }
    }

    /// The orders, lent.
    pub fn as_slice(&self) -> &[Order]
        ensures { result.now ≡ self.now.list }
    {
        self.orders.as_slice()
    }

    /// The orders themselves.
    pub fn into_vec(self) -> Vec<Order>
        ensures { result.items ≡ self.list }
    {
        let OrderList { orders } = self;
        orders
    }

    /// The number of orders.
    pub fn len(&self) -> usize
        ensures { result ≡ length self.now.list }
    {
        self.orders.len()
    }

    /// For how many more orders there is room.
    pub fn room(&self) -> usize
        ensures { result ≡ self.now.room }
    {
        self.orders.capacity() - self.orders.len()
    }

    /// Makes room for so many further orders; the one error is want of memory.
    pub fn reserve(&mut self, orders: usize) -> Result<(), AllocError>
        ensures list { self.new.list ≡ self.old.list }
        ensures room { OnOk result (orders ≤ self.new.room) }
        ensures kept { self.old.room ≤ self.new.room }
    {
        self.orders.reserve(orders)
    }

    /// Adds an order, in room that is there.
    pub fn add(&mut self, order: Order)
        requires { 0 < self.old.room }
        ensures list { self.new.list ≡ self.old.list ++ order ∷ [] }
        ensures room { self.old.room ≤ self.new.room + 1 }
    {
        let pushed = self.orders.push(order);
        prove!(pushed.is_ok());
        let _ = pushed;
    }

    /// A copy of the orders; the one error is want of memory.
    pub fn try_clone(&self, alloc: Global) -> Result<Self, AllocError>
        ensures { IfOk result (λ o. o.list ≡ self.now.list) }
    {
        let mut orders = Vec::new(alloc);
        for order in self.orders.as_slice() {
            orders.push(order.try_clone(alloc)?)?;
        }
        Ok(OrderList { orders })
    }
}
