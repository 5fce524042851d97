//! Maps with distinct keys, in the order of insertion (OASIS AMQP 1.0, part 1, section 1.6.23). A look-up and an insertion
//! scan the entries; a whole map is made by `OrderedMap::from_entries`, in linear time where the hashes of the keys differ.
ghost use Rattle.std.specs.Prelude.{◌≡◌, ◌≢◌, ◌↔◌, Some, IsTrue, IsNone, IfOk, OnOk, OnErr, IsErrOf, is_some, option_map, position};
ghost use Rattle.std.specs.List.{list_any};
ghost use Rattle.std.specs.Slice.Iter.{iter_rest};
ghost use Rattle.amqp_data.specs.Data.{Amqp, no_pairs, pair_count, IsNew, HasDistinctKeys};
ghost use Rattle.amqp_data.specs.Maps.{lookup, inserted};
ghost use Rattle.amqp_data.specs.Marks.{last_byte, mark_of};
ghost use Rattle.amqp_data.specs.Same.{same, distinct_keys};
ghost use Rattle.amqp_data.specs.View.{view, pairs_view};
ghost use Rattle.amqp_data.specs.declared.map.MapError.TheVariants.{Memory};

use crate::value::{Entry, OrderedMap, Value};
use indexmap::IndexSet;
use std::alloc::{AllocError, Global};
use std::{mem, slice};
use thiserror::Error;

/// Why entries make no map.
#[derive(Clone, Copy, Debug, PartialEq, Eq, Error)]
pub enum MapError {
    /// There was not enough memory.
    #[error("Memory")]
    Memory(AllocError),
    /// A key comes twice.
    #[error("DuplicateKey")]
    DuplicateKey,
}

impl From<AllocError> for MapError {
    ghost from_gives = { λ a e. e ≡ Memory a };

    fn from(error: AllocError) -> Self {
        MapError::Memory(error)
    }
}

/// How many entries have their keys compared one with another: beyond that a set is quicker.
const FEW_ENTRIES: usize = 16;

/// Whether one of the entries has the key.
fn have_key(entries: &[Entry], key: &Value) -> bool
    ensures { result ≡ list_any (λ e. same (view key.now) (view e.key)) entries.now }
{
    entries.iter().any(|entry| *key == entry.key)
}

fn last_byte(bytes: &[u8]) -> u8
    ensures { result ≡ last_byte bytes.now }
{
    match bytes {
        [.., last] => *last,
        _ => 0,
    }
}

/// The last byte of a text or a symbol, and 0 of an empty one and of any other value: equal keys have the same.
fn mark_of(key: &Value) -> u8
    ensures { result ≡ mark_of (view key.now) }
{
    match key {
        Value::String(text) => last_byte(text.as_bytes()),
        Value::Symbol(symbol) => last_byte(symbol.as_slice()),
        _ => 0,
    }
}

/// Whether each key is new: it is compared to all before it where one of them has the same mark, which is seldom so.
fn are_all_new(entries: &[Entry]) -> bool
    ensures { result ≡ distinct_keys (pairs_view entries.now) }
{
    let mut seen = [false; 256];
    for place in 0..entries.len() {
        let key = &entries[place].key;
        let mark = mark_of(key) as usize;
        if seen[mark] && have_key(&entries[..place], key) {
            return false;
        }
        seen[mark] = true;
    }
    true
}

fn has_distinct_keys(alloc: Global, entries: &[Entry]) -> Result<bool, AllocError>
    ensures { IfOk result (λ b. b ≡ distinct_keys (pairs_view entries.now)) }
{
    if entries.len() <= FEW_ENTRIES {
        return Ok(are_all_new(entries));
    }
    let mut seen: IndexSet<&Value> = IndexSet::new(alloc);
    for entry in entries {
        if !seen.insert(&entry.key)? {
            return Ok(false);
        }
    }
    Ok(true)
}

/// The place of the key among the entries, if it is there.
fn place_of(entries: &[Entry], key: &Value) -> Option<usize>
    ensures { result ≡ position (λ e. same (view e.key) (view key.now)) entries.now }
{
    entries.iter().position(|entry| entry.key == *key)
}

impl OrderedMap {
    /// No entries; takes no memory.
    pub fn new(alloc: Global) -> Self
        ensures { result ≡ no_pairs }
    {
        OrderedMap {
            entries: Vec::new(alloc),
        }
    }

    /// Those entries: `DuplicateKey` exactly where a key comes twice, unless memory runs out.
    /// The work is linear in the size of the keys where their hashes differ.
    pub fn from_entries(alloc: Global, entries: Vec<Entry>) -> Result<Self, MapError>
        ensures ok { IfOk result (λ m. m ≡ pairs_view entries.items) }
        ensures distinct { OnOk result (HasDistinctKeys (pairs_view entries.items)) }
        ensures refused { IsErrOf result MapError.DuplicateKey → HasDistinctKeys (pairs_view entries.items) → ⊥ }
    {
        if has_distinct_keys(alloc, &entries)? {
            Ok(OrderedMap { entries })
        } else {
            Err(MapError::DuplicateKey)
        }
    }

    /// The entries, lent.
    pub fn entries(&self) -> &[Entry]
        ensures value { pairs_view result.now ≡ self.now }
        ensures distinct { HasDistinctKeys self.now }
    {
        &self.entries
    }

    /// The entries in order of insertion.
    pub fn iter(&self) -> slice::Iter<'_, Entry>
        ensures { pairs_view (iter_rest result) ≡ self.now }
    {
        self.entries.iter()
    }

    /// The number of entries.
    pub fn len(&self) -> usize
        ensures { result ≡ pair_count self.now }
    {
        self.entries.len()
    }

    /// Whether there are none.
    pub fn is_empty(&self) -> bool
        ensures { IsTrue result ↔ (self.now ≡ no_pairs) }
    {
        self.entries.is_empty()
    }

    /// The value at the key, lent. The work is linear in the number of entries.
    pub fn get(&self, key: &Value) -> Option<&Value>
        ensures value { option_map (λ v. view v.now) result ≡ lookup (view key.now) self.now }
        ensures none { IsNone result ↔ IsNew (view key.now) self.now }
    {
        let place = place_of(&self.entries, key)?;
        Some(&self.entries[place].value)
    }

    /// Whether the key is there. The work is linear in the number of entries.
    pub fn contains_key(&self, key: &Value) -> bool
        ensures { result ≡ is_some (lookup (view key.now) self.now) }
    {
        self.get(key).is_some()
    }

    /// Puts the value at the key. A key that is there keeps its place, and the value that it had is answered; another one
    /// goes to the end. Want of memory leaves the map as it was. The work is linear in the number of entries.
    pub fn insert(&mut self, key: Value, value: Value) -> Result<Option<Value>, AllocError>
        ensures ok { OnOk result (self.new ≡ inserted (view key) (view value) self.old) }
        ensures old { IfOk result (λ had. option_map view had ≡ lookup (view key) self.old) }
        ensures found { OnOk result (lookup (view key) self.new ≡ Some (view value)) }
        ensures others { OnOk result ((k : Amqp) → k ≢ view key → lookup k self.new ≡ lookup k self.old) }
        ensures err { OnErr result (self.new ≡ self.old) }
    {
        if let Some(place) = place_of(&self.entries, &key) {
            let entry = &mut self.entries[place];
            let had = mem::replace(&mut entry.value, value);
            return Ok(Some(had));
        }
        self.entries.push(Entry { key, value })?;
        Ok(None)
    }
}

impl<'a> IntoIterator for &'a OrderedMap {
    type Item = &'a Entry;

    type IntoIter = slice::Iter<'a, Entry>;

    ghost into_iter_gives = { λ map it. pairs_view (iter_rest it) ≡ map.now };

    fn into_iter(self) -> Self::IntoIter {
        self.iter()
    }
}
