//! The lines of a case.
//!
//! The first line makes the book: `MODE CREDIT_MODE CREDIT`, where MODE is `first` or `second`, and CREDIT_MODE `manual` or
//! `auto:NUMBER`. A tag is the delivery-id in four bytes, the most significant first.
use crate::error::CaseError;
use amqp_composites::modes::ReceiverSettleMode;
use amqp_data::Binary;
use amqp_delivery::{BookState, CreditMode, DeliveryInfo};
use std::alloc::{AllocError, Global};

/// A number.
pub fn number(word: &str) -> Result<u32, CaseError> {
    match word.parse::<u32>() {
        Ok(number) => Ok(number),
        Err(_) => Err(CaseError::Malformed),
    }
}

/// Two numbers; one alone is both.
pub fn two_numbers(words: &str) -> Result<(u32, u32), CaseError> {
    match words.split_once(' ') {
        Some((first, last)) => Ok((number(first)?, number(last)?)),
        None => {
            let only = number(words)?;
            Ok((only, only))
        }
    }
}

/// A credit mode.
pub fn credit_mode(word: &str) -> Result<CreditMode, CaseError> {
    if let Some(maximum) = word.strip_prefix("auto:") {
        return Ok(CreditMode::Auto(number(maximum)?));
    }
    match word {
        "manual" => Ok(CreditMode::Manual),
        _ => Err(CaseError::Malformed),
    }
}

fn settle_mode(word: &str) -> Result<ReceiverSettleMode, CaseError> {
    match word {
        "first" => Ok(ReceiverSettleMode::First),
        "second" => Ok(ReceiverSettleMode::Second),
        _ => Err(CaseError::Malformed),
    }
}

/// The book of a first line.
pub fn read_book(alloc: Global, line: &str) -> Result<BookState, CaseError> {
    let Some((mode, rest)) = line.split_once(' ') else {
        return Err(CaseError::Malformed);
    };
    let Some((credit, amount)) = rest.split_once(' ') else {
        return Err(CaseError::Malformed);
    };
    let mode = settle_mode(mode)?;
    let credit_mode = credit_mode(credit)?;
    let amount = number(amount)?;
    Ok(BookState::new(alloc, mode, credit_mode, amount))
}

/// The tag of a delivery.
pub fn tag_of(alloc: Global, number: u32) -> Result<Binary, AllocError> {
    Binary::from_slice(alloc, &number.to_be_bytes())
}

/// A delivery.
pub fn info_of(alloc: Global, number: u32) -> Result<DeliveryInfo, AllocError> {
    let tag = tag_of(alloc, number)?;
    Ok(DeliveryInfo::new(number, tag, None))
}

/// The deliveries with these numbers.
pub fn infos_of(alloc: Global, first: u32, last: u32) -> Result<Vec<DeliveryInfo>, AllocError> {
    let mut infos = Vec::new(alloc);
    for number in first..=last {
        infos.push(info_of(alloc, number)?)?;
    }
    Ok(infos)
}
