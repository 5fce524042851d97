//! Deliveries that are not settled (OASIS AMQP 1.0, part 2, section 2.7.3).
ghost use Rattle.std.specs.Prelude.{◌≡◌, ◌↔◌, [], length, IsTrue, IfOk, OnOk, IsErrOf, option_map};
ghost use Rattle.std.specs.Vec.Iter.{into_iter_items};
ghost use Rattle.amqp_composites.specs.amqp_data.View.{view, pairs_view};
ghost use Rattle.amqp_composites.specs.amqp_fields.Fields.{Gives, Makes, IsValid, optional, maybe};
ghost use Rattle.amqp_termini.specs.State.{state_in, of_state, IsStateValid};
ghost use Rattle.amqp_termini.specs.Unsettled.{GivesDeliveries, MakesPairs, unsettled_in, deliveries_in, of_unsettled, pairs_of, HasDistinctTags, AreStatesValid, state_of, unsettled_again};

use crate::state::DeliveryState;
use amqp_composites::amqp_data::map::MapError;
use amqp_composites::amqp_data::{Binary, Entry, OrderedMap, Value};
use amqp_composites::amqp_fields::{BaseError, Field, TryClone, copied_all};
use std::alloc::{AllocError, Global};
use std::marker::Model;
use std::vec::IntoIter;

/// A delivery that is not settled.
#[derive(Debug, Drop, PartialEq, Eq)]
pub struct UnsettledDelivery {
    /// Its delivery-tag.
    pub delivery_tag: Binary,
    /// Its state at the end that tells of it, if there is one.
    pub state: Option<DeliveryState>,
}

impl TryClone for UnsettledDelivery {
    fn try_clone(&self, alloc: Global) -> Result<Self, AllocError> {
        let delivery_tag = self.delivery_tag.try_clone(alloc)?;
        let state = self.state.try_clone(alloc)?;
        Ok(UnsettledDelivery {
            delivery_tag,
            state,
        })
    }
}

/// The deliveries that are not settled, each with a tag of its own, in the order in which they are written. A look-up scans them.
#[derive(Debug, Drop)]
pub struct UnsettledMap {
    deliveries: Vec<UnsettledDelivery>,
}

impl Model for UnsettledMap {
    ghost use Rattle.std.specs.Prelude.{List};
    ghost use Rattle.amqp_termini.specs.declared.unsettled.UnsettledDelivery.{UnsettledDelivery};

    ghost Value = { List UnsettledDelivery };

    ghost use Rattle.std.specs.Coded.{codes};
    ghost use Rattle.amqp_composites.specs.amqp_fields.contracts.map.FieldMap as map;

    ghost coded = { Prim.hlevel (codes, map.the_row.coded) };

    ghost view = { λ m. m.deliveries.items };

    ghost use Rattle.amqp_termini.specs.Unsettled.{HasDistinctTags};

    ghost invariant = { λ m. HasDistinctTags m.deliveries.items };
}

impl UnsettledMap {
    /// No deliveries; takes no memory.
    pub fn new(alloc: Global) -> Self
        ensures { result ≡ [] }
    {
        UnsettledMap {
            deliveries: Vec::new(alloc),
        }
    }

    /// Those deliveries: `DuplicateKey` exactly where a tag comes twice, unless memory runs out.
    /// The work is linear in their size where the hashes of the tags differ.
    pub fn from_deliveries(
        alloc: Global,
        deliveries: Vec<UnsettledDelivery>,
    ) -> Result<Self, MapError>
        ensures ok { IfOk result (λ m. m ≡ deliveries.items) }
        ensures distinct { OnOk result (HasDistinctTags deliveries.items) }
        ensures refused { IsErrOf result MapError.DuplicateKey → HasDistinctTags deliveries.items → ⊥ }
    {
        match entries_of(alloc, &deliveries) {
            Ok(entries) => {
                OrderedMap::from_entries(alloc, entries)?;
                Ok(UnsettledMap { deliveries })
            }
            Err(BaseError::Memory(error)) => Err(MapError::Memory(error)),
            Err(_) => Err(MapError::DuplicateKey),
        }
    }

    /// The deliveries, lent.
    pub fn deliveries(&self) -> &[UnsettledDelivery]
        ensures value { result.now ≡ self.now }
        ensures distinct { HasDistinctTags self.now }
    {
        &self.deliveries
    }

    /// The deliveries themselves.
    pub fn into_deliveries(self) -> Vec<UnsettledDelivery>
        ensures value { result.items ≡ self }
        ensures distinct { HasDistinctTags self }
    {
        self.deliveries
    }

    /// The number of deliveries.
    pub fn len(&self) -> usize
        ensures { result ≡ length self.now }
    {
        self.deliveries.len()
    }

    /// Whether there are none.
    pub fn is_empty(&self) -> bool
        ensures { IsTrue result ↔ (self.now ≡ []) }
    {
        self.deliveries.is_empty()
    }

    /// The state of the delivery with that tag, lent: none where there is no such delivery. The work is linear in their number.
    pub fn get(&self, delivery_tag: &[u8]) -> Option<&Option<DeliveryState>>
        ensures { option_map (λ s. s.now) result ≡ state_of delivery_tag.now self.now }
    {
        for delivery in &self.deliveries {
            if delivery.delivery_tag.as_slice() == delivery_tag {
                return Some(&delivery.state);
            }
        }
        None
    }
}

impl TryClone for UnsettledMap {
    fn try_clone(&self, alloc: Global) -> Result<Self, AllocError> {
        let deliveries = copied_all(alloc, &self.deliveries)?;
        Ok(UnsettledMap { deliveries })
    }
}

/// Two maps are equal where they have the same deliveries in the same order.
impl PartialEq for UnsettledMap {
    ghost use Rattle.std.specs.Cmp.{partial_equiv_from_equiv};
    ghost use Rattle.std.specs.Cmp.Lexicographic.{pointwise, lists_equiv};
    ghost use Rattle.amqp_termini.specs.contracts.unsettled.UnsettledDeliveryEq.TheImpl.Laws as delivery_laws;

    ghost eq = { pointwise ⟦<UnsettledDelivery as PartialEq>⟧.eq };

    ghost laws = { partial_equiv_from_equiv (lists_equiv delivery_laws.laws-law) };

    fn eq(&self, other: &Self) -> bool {
        self.deliveries == other.deliveries
    }
}

impl Eq for UnsettledMap {
    ghost use Rattle.std.specs.Cmp.Lexicographic.{lists_equiv};
    ghost use Rattle.amqp_termini.specs.contracts.unsettled.UnsettledDeliveryEq.TheImpl.Laws as delivery_laws;

    ghost laws = { lists_equiv delivery_laws.laws-law };
}

fn state_or_null(alloc: Global, value: Value) -> Result<Option<DeliveryState>, BaseError>
    ensures { Gives result (optional state_in (view value)) }
{
    match value {
        Value::Null => Ok(None),
        value => {
            let state = DeliveryState::from_value(alloc, value)?;
            Ok(Some(state))
        }
    }
}

/// The deliveries that the entries tell of.
fn deliveries_of(
    alloc: Global,
    entries: IntoIter<Entry>,
) -> Result<Vec<UnsettledDelivery>, BaseError>
    ensures { GivesDeliveries (λ us. us.items) result (deliveries_in (pairs_view (into_iter_items entries))) }
{
    let mut left = entries;
    let mut deliveries = Vec::new(alloc);
    while let Some(entry) = left.next() {
        let delivery_tag = Binary::from_value(alloc, entry.key)?;
        let state = state_or_null(alloc, entry.value)?;
        deliveries.push(UnsettledDelivery {
            delivery_tag,
            state,
        })?;
    }
    Ok(deliveries)
}

fn state_value(alloc: Global, state: &Option<DeliveryState>) -> Result<Value, BaseError>
    ensures value { Makes view result (maybe of_state state.now) }
    ensures valid { OnOk result (IsValid IsStateValid state.now) }
{
    match state {
        Some(state) => state.to_value(alloc),
        None => Ok(Value::Null),
    }
}

/// The entries that tell of the deliveries.
fn entries_of(alloc: Global, deliveries: &[UnsettledDelivery]) -> Result<Vec<Entry>, BaseError>
    ensures value { MakesPairs (λ es. pairs_view es.items) result (pairs_of deliveries.now) }
    ensures valid { OnOk result (AreStatesValid deliveries.now) }
{
    let mut entries = Vec::new(alloc);
    for delivery in deliveries {
        let key = delivery.delivery_tag.to_value(alloc)?;
        let value = state_value(alloc, &delivery.state)?;
        entries.push(Entry { key, value })?;
    }
    Ok(entries)
}

impl Field for UnsettledMap {
    ghost reads = { unsettled_in };

    ghost writes = { of_unsettled };

    ghost valid = { AreStatesValid };

    fn from_value(alloc: Global, value: Value) -> Result<Self, BaseError> {
        let Value::Map(map) = value else {
            return Err(BaseError::Decode);
        };
        let deliveries = deliveries_of(alloc, map.into_entries().into_iter())?;
        Ok(UnsettledMap { deliveries })
    }

    fn to_value(&self, alloc: Global) -> Result<Value, BaseError> {
        let entries = entries_of(alloc, &self.deliveries)?;
        match OrderedMap::from_entries(alloc, entries) {
            Ok(map) => Ok(Value::Map(map)),
            Err(MapError::Memory(error)) => Err(BaseError::Memory(error)),
            Err(MapError::DuplicateKey) => Err(BaseError::Decode),
        }
    }

    ghost again = { unsettled_again };

    ghost there = { λ x. tt };
}
