//! Receipts that are changed by hand.
use amqp_data::Binary;
use amqp_delivery::{BookCall, BookReply, DeliveryInfo};
use book_history::Receipt;
use std::alloc::{AllocError, Global};

/// What of a receipt is changed, and to what.
#[derive(Clone, Copy)]
pub enum Change {
    /// Its place in the history, from 0.
    Place(u64),
    /// The number of the seat that made the call.
    Seat(u32),
    /// Its reply, to that of a disposal that found so many deliveries.
    Found(u32),
    /// Its call, to the registration of the delivery with this number.
    Register(u32),
}

/// The delivery with that number; its tag is the number in four bytes.
pub fn info_of(alloc: Global, number: u32) -> Result<DeliveryInfo, AllocError> {
    let tag = Binary::from_slice(alloc, &number.to_be_bytes())?;
    Ok(DeliveryInfo::new(number, tag, None))
}

impl Change {
    /// Changes that receipt.
    pub fn make(self, alloc: Global, receipt: &mut Receipt) -> Result<(), AllocError> {
        match self {
            Change::Place(place) => receipt.place = place,
            Change::Seat(seat) => receipt.entry.seat = seat,
            Change::Found(found) => {
                receipt.entry.reply = BookReply::Done {
                    found,
                    refilled: false,
                };
            }
            Change::Register(number) => {
                receipt.entry.call = BookCall::Register(info_of(alloc, number)?);
            }
        }
        Ok(())
    }
}
