//! The unsettled deliveries of a book, and what was said of them.
use crate::error::CaseError;
use amqp_data::Binary;
use amqp_delivery::BookState;
use amqp_termini::{Accepted, DeliveryState, Released};
use std::alloc::{AllocError, Global};

/// A state of a word: `accepted` or `released`.
pub fn state_of(word: &str) -> Result<DeliveryState, CaseError> {
    match word {
        "accepted" => Ok(DeliveryState::Accepted(Accepted {})),
        "released" => Ok(DeliveryState::Released(Released {})),
        _ => Err(CaseError::Malformed),
    }
}

fn name_of(state: Option<&DeliveryState>) -> &'static str {
    match state {
        None => "none",
        Some(DeliveryState::Accepted(_)) => "accepted",
        Some(DeliveryState::Released(_)) => "released",
        Some(DeliveryState::Rejected(_)) => "rejected",
        Some(_) => "other",
    }
}

/// The number that stands in a tag of four bytes.
fn number_in(tag: &Binary) -> u32 {
    match tag.as_slice() {
        [a, b, c, d] => u32::from_be_bytes([*a, *b, *c, *d]),
        _ => u32::MAX,
    }
}

/// Adds the number of each delivery and its state, a line each, in the order of their numbers.
pub fn push_states(alloc: Global, text: &mut String, book: &BookState) -> Result<(), AllocError> {
    let mut numbers = Vec::new(alloc);
    for place in 0..book.len() {
        if let Some(tag) = book.tag_at(place) {
            numbers.push((number_in(tag), place))?;
        }
    }
    numbers.sort()?;
    for (number, place) in numbers {
        let name = name_of(book.state_at(place));
        let line = format!(in alloc; "{number} {name}\n")?;
        text.push_str(line.as_str())?;
    }
    Ok(())
}
