//! Deliveries by their numbers, which are modulo 2 ^ 32 (OASIS AMQP 1.0, part 2, section 2.8.9; RFC 1982).
ghost use Rattle.std.specs.Prelude.{◌≡◌, ◌<◌, ◌≤◌, [], OnOk, IfOk, IsTrue, None};
ghost use Rattle.std.specs.Option.{option_copied};
ghost use Rattle.amqp_link_tables.specs.Deliveries.{deliveries_in, entered, delivery_of, forgotten, numbers_between, numbers_from, numbers_up_to, numbers_around, covered, AreInOrder, IsCover};

use amqp_text::Binary;
use std::alloc::{AllocError, Global};
use std::collections::BTreeMap;

/// A delivery that is not settled at both ends.
pub struct Delivered {
    /// The name under which its link is called.
    pub link: u64,
    /// Its tag (section 2.8.7).
    pub tag: Binary,
}

impl Drop for Delivered {
    fn drop(self) {
        let Delivered { link: _, tag } = self;
        drop(tag);
    }
}

/// The deliveries of one session in one direction, in the order of their numbers.
pub struct DeliveryTable {
    alloc: Global,
    deliveries: BTreeMap<u32, Delivered>,
}

// The table is let go by a call, so that no caller sees what stands in it.
impl Drop for DeliveryTable {
    fn drop(self) {
        let DeliveryTable {
            alloc: _,
            deliveries,
        } = self;
        drop(deliveries);
    }
}

impl DeliveryTable {
    /// No deliveries; takes no memory.
    pub fn new(alloc: Global) -> Self
        ensures { deliveries_in result ≡ [] }
    {
        DeliveryTable {
            alloc,
            deliveries: BTreeMap::new(alloc),
        }
    }

    /// A delivery has that number. The one error is want of memory.
    pub fn enter(&mut self, delivery_id: u32, delivery: Delivered) -> Result<(), AllocError>
        ensures { OnOk result (deliveries_in self.new ≡ entered delivery_id delivery (deliveries_in self.old)) }
    {
        drop(self.deliveries.insert(delivery_id, delivery)?);
        Ok(())
    }

    /// The delivery of that number.
    pub fn delivery(&self, delivery_id: u32) -> Option<&Delivered>
        ensures { option_copied result ≡ delivery_of delivery_id (deliveries_in self.now) }
    {
        self.deliveries.get(&delivery_id)
    }

    /// No delivery has that number. The answer is the one that had it.
    pub fn forget(&mut self, delivery_id: u32) -> Option<Delivered>
        ensures delivery { result ≡ delivery_of delivery_id (deliveries_in self.old) }
        ensures state { deliveries_in self.new ≡ forgotten delivery_id (deliveries_in self.old) }
        ensures gone { delivery_of delivery_id (deliveries_in self.new) ≡ None }
    {
        self.deliveries.remove(&delivery_id)
    }

    /// The numbers from the first to the last, modulo 2 ^ 32, that have a delivery: each once, in the order of the range. It takes time for
    /// those numbers alone, however wide the range is and however many deliveries stand outside of it. The one error is want of memory.
    pub fn covered(&self, first: u32, last: u32) -> Result<Vec<u32>, AllocError>
        ensures numbers { IfOk result (λ numbers. numbers.items ≡ covered first last (deliveries_in self.now)) }
        ensures once { IfOk result (λ numbers. IsCover first last (deliveries_in self.now) numbers.items) }
        ensures order { AreInOrder (deliveries_in self.now) }
    {
        if first <= last {
            self.numbers_between(first, last)
        } else {
            self.numbers_around(first, last)
        }
    }

    /// The numbers that have a delivery, of those from the first to the last.
    fn numbers_between(&self, first: u32, last: u32) -> Result<Vec<u32>, AllocError>
        requires { first ≤ last }
        ensures numbers { IfOk result (λ numbers. numbers.items ≡ numbers_between first last (deliveries_in self.now)) }
        ensures order { AreInOrder (deliveries_in self.now) }
    {
        self.deliveries
            .range(first..=last)
            .map(|(number, _)| *number)
            .collect(self.alloc)
    }

    /// The numbers that have a delivery, of those from the first up to 2 ^ 32.
    fn numbers_from(&self, first: u32) -> Result<Vec<u32>, AllocError>
        ensures numbers { IfOk result (λ numbers. numbers.items ≡ numbers_from first (deliveries_in self.now)) }
        ensures order { AreInOrder (deliveries_in self.now) }
    {
        self.deliveries
            .range(first..)
            .map(|(number, _)| *number)
            .collect(self.alloc)
    }

    /// The numbers that have a delivery, of those from 0 to the last.
    fn numbers_up_to(&self, last: u32) -> Result<Vec<u32>, AllocError>
        ensures { IfOk result (λ numbers. numbers.items ≡ numbers_up_to last (deliveries_in self.now)) }
    {
        self.deliveries
            .range(..=last)
            .map(|(number, _)| *number)
            .collect(self.alloc)
    }

    /// The numbers that have a delivery, of those from the first up to 2 ^ 32, and then of those from 0 to the last.
    fn numbers_around(&self, first: u32, last: u32) -> Result<Vec<u32>, AllocError>
        ensures numbers { IfOk result (λ numbers. numbers.items ≡ numbers_around first last (deliveries_in self.now)) }
        ensures order { AreInOrder (deliveries_in self.now) }
    {
        let mut numbers = self.numbers_from(first)?;
        let more = self.numbers_up_to(last)?;
        numbers.extend_from_slice(more.as_slice())?;
        Ok(numbers)
    }
}
