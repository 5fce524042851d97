//! Ranges, found by an attachment and a number.
ghost use Rattle.std.specs.Prelude.{◌≡◌, ◌<◌};

use amqp_delivery::{BookState, Steps};
use std::marker::Brand;
use std::sync::ledger::{Blank, Ledger};

fn find_at<L: Ledger>(book: &BookState, blank: Blank, attachment: u64, number: u32) -> Option<u64>
    requires name { blank.name ≡ L.name }
    requires parts { blank.parts ≡ L.parts }
    requires some { 0 < blank.parts }
{
    let mut steps = Steps::<L>::new(blank);
    book.find_range(attachment, number, &mut steps)
}

/// The position of the first range of a book that holds the pair.
pub fn find(book: &BookState, attachment: u64, number: u32) -> Option<u64> {
    find_at::<Brand>(book, Blank::new(1), attachment, number)
}
