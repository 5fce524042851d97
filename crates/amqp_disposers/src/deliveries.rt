//! The deliveries that are registered.
ghost use Rattle.std.specs.Prelude.{◌≡◌, IfOk};
ghost use Rattle.amqp_disposers.specs.Deliveries.{delivery_of, deliveries_below, registered_all, first_book};

use amqp_composites::modes::ReceiverSettleMode;
use amqp_data::Binary;
use amqp_delivery::{BookState, CreditMode, DeliveryInfo};
use std::alloc::{AllocError, Global};

/// The delivery with that number; its tag is the number in four bytes. The one error is want of memory.
fn delivery(alloc: Global, number: u32) -> Result<DeliveryInfo, AllocError>
    ensures { IfOk result (λ i. i ≡ delivery_of number) }
{
    let octets = number.to_be_bytes();
    let tag = Binary::from_slice(alloc, &octets)?;
    Ok(DeliveryInfo::new(number, tag, None))
}

/// The deliveries with the numbers below `count`, in order; the one error is want of memory.
pub fn deliveries(alloc: Global, count: u32) -> Result<Vec<DeliveryInfo>, AllocError>
    ensures { IfOk result (λ v. v.items ≡ deliveries_below count) }
{
    let mut infos = Vec::new(alloc);
    for number in 0..count {
        let info = delivery(alloc, number)?;
        infos.push(info)?;
    }
    Ok(infos)
}

/// A book of mode First with these deliveries, which gives no credit by itself; the one error is want of memory.
pub fn book_of(alloc: Global, infos: &[DeliveryInfo]) -> Result<BookState, AllocError>
    ensures { IfOk result (λ b. b.book ≡ registered_all first_book infos.now) }
{
    let mut book = BookState::new(alloc, ReceiverSettleMode::First, CreditMode::Manual, 0);
    for info in infos {
        let copy = info.try_clone(alloc)?;
        book.register(copy)?;
    }
    Ok(book)
}
