//! Copies of a state, made before any of them is used.
ghost use Rattle.std.specs.Prelude.{◌≡◌, ◌+◌, ◌<◌, length, All, IfOk};

use crate::states::{copy_state, is_plain, plain_copy};
use amqp_termini::DeliveryState;
use std::alloc::{AllocError, Global};
use std::marker::Model;

/// A state, and how many copies of it are at hand. Of Accepted and Released none is kept, since a copy takes no memory.
pub(crate) struct Copies {
    of: DeliveryState,
    more: Vec<DeliveryState>,
    count: usize,
}

impl Drop for Copies {
    fn drop(self) {
        let Copies { of, more, count: _ } = self;
        drop(of);
        drop(more);
    }
}

impl Model for Copies {
    ghost use Rattle.std.specs.Prelude.{◌≡◌, ◌≤◌, false, length, All};
    ghost use Rattle.amqp_delivery.specs.Copies.{Copied};
    ghost use Rattle.amqp_delivery.specs.States.{is_plain};

    ghost Value = { Copied };

    ghost use Rattle.std.specs.Coded.{codes};
    ghost use Rattle.amqp_termini.specs.amqp_fields.contracts.map.FieldMap as map;

    ghost coded = { Prim.hlevel (codes, map.the_row.coded) };

    ghost view = { λ a. record { of = a.of; count = a.count } };

    ghost invariant = { λ a. All (λ s. s ≡ a.of) a.more.items × (is_plain a.of ≡ false → a.count ≤ length a.more.items) };
}

impl Copies {
    /// So many copies of a state; the one error is want of memory.
    pub(crate) fn new(alloc: Global, of: DeliveryState, count: usize) -> Result<Self, AllocError>
        ensures { IfOk result (λ c. c ≡ record { of = of; count = count }) }
    {
        let more = if is_plain(&of) {
            Vec::new(alloc)
        } else {
            copies_of(alloc, &of, count)?
        };
        Ok(Copies { of, more, count })
    }

    /// Takes a copy.
    pub(crate) fn take(&mut self) -> DeliveryState
        requires { 0 < self.old.count }
        ensures state { result ≡ self.old.of }
        ensures of { self.new.of ≡ self.old.of }
        ensures count { self.new.count + 1 ≡ self.old.count }
    {
        self.count -= 1;
        if is_plain(&self.of) {
            plain_copy(&self.of)
        } else {
            self.more.pop().unwrap()
        }
    }
}

fn copies_of(
    alloc: Global,
    of: &DeliveryState,
    count: usize,
) -> Result<Vec<DeliveryState>, AllocError>
    ensures same { IfOk result (λ v. All (λ s. s ≡ of.now) v.items) }
    ensures count { IfOk result (λ v. length v.items ≡ count) }
{
    let mut copies = Vec::new(alloc);
    for made in 0..count {
        copies.push(copy_state(alloc, of)?)?;
    }
    Ok(copies)
}
