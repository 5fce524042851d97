use amqp_data::{Binary, MapError};
use amqp_termini::{
    Accepted, DeliveryState, Outcome, Received, Rejected, Released, TerminalDeliveryState,
    UnsettledDelivery, UnsettledMap,
};
use std::alloc::{AllocError, Global};
use std::test::Fail;

/// 0 of an acceptance, 1 of a release, 2 of any other outcome.
fn outcome_number(outcome: Outcome) -> u8 {
    let taken = outcome.accepted_or_else(|other| {
        if matches!(other, Outcome::Released(_)) {
            1
        } else {
            2
        }
    });
    match taken {
        Ok(_) => 0,
        Err(number) => number,
    }
}

#[test]
fn accepted_or_else(rt: HostRuntime) {
    assert_eq!(rt; outcome_number(Outcome::Accepted(Accepted {})), 0);
    assert_eq!(rt; outcome_number(Outcome::Released(Released {})), 1);
    assert_eq!(rt;
        outcome_number(Outcome::Rejected(Rejected { error: None })),
        2
    );
}

fn ends_delivery(state: DeliveryState) -> bool {
    TerminalDeliveryState::try_from(state).is_ok()
}

#[test]
fn states_that_end_deliveries(rt: HostRuntime) {
    assert!(rt; ends_delivery(DeliveryState::from(TerminalDeliveryState::from(Released {}))));
    let received = Received {
        section_number: 0,
        section_offset: 0,
    };
    assert!(rt; !ends_delivery(DeliveryState::Received(received)));
}

/// An accepted delivery, and behind it one without a state.
fn two_deliveries(
    alloc: Global,
    first: &[u8],
    second: &[u8],
) -> Result<Vec<UnsettledDelivery>, AllocError> {
    let mut deliveries = Vec::new(alloc);
    deliveries.push(UnsettledDelivery {
        delivery_tag: Binary::from_slice(alloc, first)?,
        state: Some(DeliveryState::Accepted(Accepted {})),
    })?;
    deliveries.push(UnsettledDelivery {
        delivery_tag: Binary::from_slice(alloc, second)?,
        state: None,
    })?;
    Ok(deliveries)
}

#[test]
fn unsettled_deliveries(rt: HostRuntime) -> Result<(), Fail> {
    let map = UnsettledMap::from_deliveries(rt.alloc(), two_deliveries(rt.alloc(), b"1", b"2")?)?;
    assert!(rt; matches!(map.get(b"1"), Some(Some(DeliveryState::Accepted(_)))));
    assert!(rt; matches!(map.get(b"2"), Some(None)));
    assert!(rt; map.get(b"").is_none());
    let twice = UnsettledMap::from_deliveries(rt.alloc(), two_deliveries(rt.alloc(), b"1", b"1")?);
    assert!(rt; matches!(twice, Err(MapError::DuplicateKey)));
    Ok(())
}
