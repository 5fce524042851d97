//! Maps, and deliveries that are not settled.
ghost use Rattle.std.specs.Prelude.{◌≤◌};
ghost use Rattle.amqp_data.specs.View.{view, pairs_view};
ghost use Rattle.amqp_fields.specs.Fields.{maybe, of_binary, of_map};
ghost use Rattle.amqp_termini.specs.State.{of_state};
ghost use Rattle.amqp_termini.specs.Unsettled.{pairs_of, of_unsettled};
ghost use Rattle.amqp_sizes.specs.Taken.{Takes, PairsTake};
ghost use Rattle.amqp_sizes.specs.Texts.{TakesPair};

use crate::composite::{compound_size, sum_within};
use crate::scalars::value_size;
use crate::slot::Measured;
use amqp_data::{Entry, Value};
use amqp_fields::FieldMap;
use amqp_termini::{DeliveryState, UnsettledDelivery, UnsettledMap};

/// How many bytes a key and its value take.
fn entry_size(entry: &Entry, levels: u8) -> Option<u64>
    requires { levels ≤ 32 }
    ensures { TakesPair result levels (view entry.now.key) (view entry.now.value) }
{
    let key = value_size(&entry.key, levels)?;
    let value = value_size(&entry.value, levels)?;
    key.checked_add(value)
}

/// How many bytes the keys and values take in turn, unless they have no room beside a count.
fn entries_size(entries: &[Entry], levels: u8) -> Option<u64>
    requires { levels ≤ 32 }
    ensures { PairsTake result levels (pairs_view entries.now) }
{
    let mut total: u64 = 0;
    for entry in entries {
        let size = entry_size(entry, levels)?;
        total = sum_within(total, size)?;
    }
    Some(total)
}

fn map_size(map: &FieldMap, levels: u8) -> Option<u64>
    requires { levels ≤ 32 }
    ensures { Takes result levels (of_map map.now) }
{
    if levels == 0 {
        return None;
    }
    let entries = map.as_map().entries();
    let bytes = entries_size(entries, levels - 1)?;
    Some(compound_size(2 * entries.len() as u64, bytes))
}

impl Measured for FieldMap {
    fn size(&self, levels: u8) -> Option<u64> {
        map_size(self, levels)
    }
}

/// How many bytes a state takes, or the null in its place.
fn state_size(state: &Option<DeliveryState>, levels: u8) -> Option<u64>
    requires { levels ≤ 32 }
    ensures { Takes result levels (maybe of_state state.now) }
{
    match state {
        Some(state) => state.size(levels),
        None => value_size(&Value::Null, levels),
    }
}

/// How many bytes the tag of a delivery and its state take.
fn delivery_size(delivery: &UnsettledDelivery, levels: u8) -> Option<u64>
    requires { levels ≤ 32 }
    ensures { TakesPair result levels (of_binary delivery.now.delivery_tag) (maybe of_state delivery.now.state) }
{
    let tag = delivery.delivery_tag.size(levels)?;
    let state = state_size(&delivery.state, levels)?;
    tag.checked_add(state)
}

/// How many bytes the tags and states take in turn, unless they have no room beside a count.
fn deliveries_size(deliveries: &[UnsettledDelivery], levels: u8) -> Option<u64>
    requires { levels ≤ 32 }
    ensures { PairsTake result levels (pairs_of deliveries.now) }
{
    let mut total: u64 = 0;
    for delivery in deliveries {
        let size = delivery_size(delivery, levels)?;
        total = sum_within(total, size)?;
    }
    Some(total)
}

fn unsettled_size(map: &UnsettledMap, levels: u8) -> Option<u64>
    requires { levels ≤ 32 }
    ensures { Takes result levels (of_unsettled map.now) }
{
    if levels == 0 {
        return None;
    }
    let deliveries = map.deliveries();
    let bytes = deliveries_size(deliveries, levels - 1)?;
    Some(compound_size(2 * deliveries.len() as u64, bytes))
}

impl Measured for UnsettledMap {
    fn size(&self, levels: u8) -> Option<u64> {
        unsettled_size(self, levels)
    }
}
