//! Unsettled deliveries as ranges of numbers.
ghost use Rattle.std.specs.Prelude.{◌≡◌, ◌↔◌, ◌+◌, ◌-◌, ◌*◌, ◌^◌, ◌<◌, ◌≤◌, ◌++◌, ◌∷◌, [], IsTrue, length, take, drop, vec_len, vec_capacity, IfSome, IfNone, OnOk};
ghost use Rattle.amqp_delivery.specs.Ranges.{rank, low_end, insert_pair, remove_pair, glue, pairs_in, runs, meets, AreRuns, IsParted, IsTakenOut, left_of, right_of};
ghost use Rattle.amqp_delivery.specs.Search.{IsFirstRun};

use crate::search::{find_range, place_of};
use crate::steps::Steps;
use std::alloc::{AllocError, Global};
use std::marker::Model;
use std::sync::ledger::Ledger;

/// The numbers from first to last of one attachment.
#[derive(Clone, Copy, Debug)]
pub struct Range {
    /// The attachment of the link.
    pub attachment: u64,
    /// The first number.
    pub first: u32,
    /// The last number.
    pub last: u32,
}

/// Pairs of an attachment and a number, kept as the ranges that they make: in order, each as long as can be.
#[derive(Debug)]
pub(crate) struct RangeList {
    ranges: Vec<Range>,
}

// The list is let go by a call, so that no caller sees what it holds.
impl Drop for RangeList {
    fn drop(self) {
        let RangeList { ranges } = self;
        drop(ranges);
    }
}

impl Model for RangeList {
    ghost use Rattle.std.specs.Prelude.{length, vec_capacity, ◌≤◌, ◌-◌};
    ghost use Rattle.amqp_delivery.specs.Ranges.{Ranged, AreRuns, pairs_in};

    ghost Value = { Ranged };

    ghost view = { λ a. record { pairs = pairs_in a.ranges.items; room = vec_capacity a.ranges } };

    ghost invariant = { λ a. AreRuns a.ranges.items × (length (pairs_in a.ranges.items) ≤ vec_capacity a.ranges - 1) };
}

impl RangeList {
    /// No pairs; takes no memory.
    pub(crate) fn new(alloc: Global) -> Self
        ensures { result.pairs ≡ [] }
    {
        RangeList {
            ranges: Vec::new(alloc),
        }
    }

    /// The number of ranges.
    #[tactic(auto, using(crate::proofs::Spreading::runs_pairs))]
    pub(crate) fn len(&self) -> usize
        ensures { result ≡ length (runs self.now.pairs) }
    {
        self.ranges.len()
    }

    /// The position of the first range that holds the pair.
    #[tactic(auto, using(crate::proofs::Spreading::runs_pairs, crate::proofs::Parting::sorted_runs))]
    pub(crate) fn find<L: Ledger>(
        &self,
        attachment: u64,
        number: u32,
        steps: &mut Steps<L>,
    ) -> Option<u64>
        ensures found { IsFirstRun (runs self.now.pairs) attachment number result }
        ensures cost { 2 ^ (steps.new - steps.old) ≤ 2 * length (runs self.now.pairs) + 1 }
    {
        find_range(&self.ranges, attachment, number, steps)
    }

    /// Makes room for one pair more, of which there are so many; the one error is want of memory.
    #[tactic(auto, using(crate::proofs::Parting::fewer_ranges))]
    pub(crate) fn reserve(&mut self, pairs: usize) -> Result<(), AllocError>
        requires { length self.old.pairs ≡ pairs }
        ensures pairs { self.new.pairs ≡ self.old.pairs }
        ensures room { OnOk result (pairs + 2 ≤ self.new.room) }
    {
        let more = pairs.checked_add(2).ok_or(AllocError)? - self.ranges.len();
        self.ranges.reserve(more)
    }

    /// Enters a pair.
    pub(crate) fn insert(&mut self, attachment: u64, number: u32)
        requires { length self.old.pairs + 2 ≤ self.old.room }
        ensures pairs { self.new.pairs ≡ insert_pair (attachment, number) self.old.pairs }
    {
        put(&mut self.ranges, attachment, number);
    }

    /// Takes a pair out, where it is there.
    #[tactic(auto, using(crate::proofs::Sizes::removed_fewer))]
    pub(crate) fn remove(&mut self, attachment: u64, number: u32)
        ensures pairs { self.new.pairs ≡ remove_pair (attachment, number) self.old.pairs }
        ensures room { self.old.room ≤ self.new.room }
        ensures fewer { length self.new.pairs ≤ length self.old.pairs }
    {
        take_out(&mut self.ranges, attachment, number);
    }
}

fn put(ranges: &mut Vec<Range>, attachment: u64, number: u32)
    requires runs { AreRuns ranges.old.items }
    requires room { length (pairs_in ranges.old.items) + 1 < vec_capacity ranges.old }
    ensures runs { AreRuns ranges.new.items }
    ensures pairs { pairs_in ranges.new.items ≡ insert_pair (attachment, number) (pairs_in ranges.old.items) }
    ensures room { vec_capacity ranges.old ≤ vec_capacity ranges.new }
{
    let place = cut(ranges, attachment, number);
    add_at(
        ranges,
        place,
        Range {
            attachment,
            first: number,
            last: number,
        },
    );
    join_at(ranges, place);
}

fn take_out(ranges: &mut Vec<Range>, attachment: u64, number: u32)
    requires runs { AreRuns ranges.old.items }
    requires room { vec_len ranges.old ≤ vec_capacity ranges.old - 1 }
    ensures runs { AreRuns ranges.new.items }
    ensures pairs { pairs_in ranges.new.items ≡ remove_pair (attachment, number) (pairs_in ranges.old.items) }
    ensures room { vec_capacity ranges.old ≤ vec_capacity ranges.new }
{
    if let Some(place) = cut_out(ranges, attachment, number) {
        join_at(ranges, place);
    }
}

/// Parts the ranges before the pair, and says where.
#[tactic(auto, using(crate::proofs::Parting::sorted_runs))]
fn cut(ranges: &mut Vec<Range>, attachment: u64, number: u32) -> usize
    requires runs { AreRuns ranges.old.items }
    requires room { vec_len ranges.old < vec_capacity ranges.old }
    ensures parted { IsParted ranges.new.items result (rank attachment number) }
    ensures pairs { pairs_in ranges.new.items ≡ pairs_in ranges.old.items }
    ensures room { vec_capacity ranges.old ≤ vec_capacity ranges.new }
{
    let place = place_of(ranges, attachment, number);
    if place == ranges.len() {
        return place;
    }
    let range = ranges[place];
    if !begins_below(&range, attachment, number) {
        return place;
    }
    part(ranges, place, range, number);
    place + 1
}

/// Parts the range at a place before a number within it.
fn part(ranges: &mut Vec<Range>, place: usize, range: Range, number: u32)
    requires place { place < vec_len ranges.old }
    requires within { (range.first < number) × (number ≤ range.last) }
    requires room { vec_len ranges.old < vec_capacity ranges.old }
    ensures left { take (place + 1) ranges.new.items ≡ take place ranges.old.items ++ record range { last = number - 1 } ∷ [] }
    ensures right { drop (place + 1) ranges.new.items ≡ record range { first = number } ∷ drop (place + 1) ranges.old.items }
    ensures within { place + 1 < vec_len ranges.new }
    ensures room { vec_capacity ranges.old ≤ vec_capacity ranges.new }
{
    ranges[place] = Range {
        last: number - 1,
        ..range
    };
    let right = Range {
        first: number,
        ..range
    };
    let inserted = ranges.insert(place + 1, right);
    prove!(inserted.is_ok());
    let _ = inserted;
}

/// Takes the pair out of the range that holds it, if one does, and says where the ranges are parted then.
#[tactic(auto, using(crate::proofs::Parting::sorted_runs))]
fn cut_out(ranges: &mut Vec<Range>, attachment: u64, number: u32) -> Option<usize>
    requires runs { AreRuns ranges.old.items }
    requires room { vec_len ranges.old ≤ vec_capacity ranges.old - 1 }
    ensures parted { IfSome result (λ place. IsParted ranges.new.items place (rank attachment number)) }
    ensures pairs { IfSome result (λ place. IsTakenOut ranges.old.items ranges.new.items place (attachment, number)) }
    ensures none { IfNone result (ranges.new.items ≡ ranges.old.items) }
    ensures absent { IfNone result (remove_pair (attachment, number) (pairs_in ranges.old.items) ≡ pairs_in ranges.old.items) }
    ensures room { vec_capacity ranges.old ≤ vec_capacity ranges.new }
{
    let place = place_of(ranges, attachment, number);
    if place == ranges.len() {
        return None;
    }
    let range = ranges[place];
    if is_above(&range, attachment, number) {
        return None;
    }
    let parted = take_number(ranges, place, range, number);
    Some(parted)
}

/// Takes a number out of the range at a place, and says where the ranges are parted then.
fn take_number(ranges: &mut Vec<Range>, place: usize, range: Range, number: u32) -> usize
    requires place { place < vec_len ranges.old }
    requires within { (range.first ≤ number) × (number ≤ range.last) }
    requires room { vec_len ranges.old < vec_capacity ranges.old }
    ensures left { take result ranges.new.items ≡ take place ranges.old.items ++ left_of range number }
    ensures right { drop result ranges.new.items ≡ right_of range number ++ drop (place + 1) ranges.old.items }
    ensures within { result ≤ vec_len ranges.new }
    ensures room { vec_capacity ranges.old ≤ vec_capacity ranges.new }
{
    if range.first < number {
        keep_left(ranges, place, range, number);
        return place + 1;
    }
    keep_right(ranges, place, range, number);
    place
}

fn keep_left(ranges: &mut Vec<Range>, place: usize, range: Range, number: u32)
    requires place { place < vec_len ranges.old }
    requires within { (range.first < number) × (number ≤ range.last) }
    requires room { vec_len ranges.old < vec_capacity ranges.old }
    ensures left { take (place + 1) ranges.new.items ≡ take place ranges.old.items ++ record range { last = number - 1 } ∷ [] }
    ensures right { drop (place + 1) ranges.new.items ≡ right_of range number ++ drop (place + 1) ranges.old.items }
    ensures within { place + 1 ≤ vec_len ranges.new }
    ensures room { vec_capacity ranges.old ≤ vec_capacity ranges.new }
{
    if number < range.last {
        part(ranges, place, range, number);
        ranges[place + 1] = Range {
            first: number + 1,
            ..range
        };
        return;
    }
    ranges[place] = Range {
        last: number - 1,
        ..range
    };
}

fn keep_right(ranges: &mut Vec<Range>, place: usize, range: Range, number: u32)
    requires place { place < vec_len ranges.old }
    requires within { number ≤ range.last }
    ensures left { take place ranges.new.items ≡ take place ranges.old.items }
    ensures right { drop place ranges.new.items ≡ right_of range number ++ drop (place + 1) ranges.old.items }
    ensures within { place ≤ vec_len ranges.new }
    ensures room { vec_capacity ranges.old ≤ vec_capacity ranges.new }
{
    if number < range.last {
        ranges[place] = Range {
            first: number + 1,
            ..range
        };
        return;
    }
    ranges.remove(place);
}

fn begins_below(range: &Range, attachment: u64, number: u32) -> bool
    ensures below { IsTrue result ↔ (low_end range.now < rank attachment number) }
    ensures fits { range.now.last < 2 ^ 32 }
{
    let Range {
        attachment: of,
        first,
        last: _last,
    } = *range;
    of < attachment || (of == attachment && first < number)
}

fn is_above(range: &Range, attachment: u64, number: u32) -> bool
    ensures above { IsTrue result ↔ (rank attachment number < low_end range.now) }
    ensures fits { (range.now.first < 2 ^ 32) × (range.now.last < 2 ^ 32) }
{
    let Range {
        attachment: of,
        first,
        last: _last,
    } = *range;
    attachment < of || (of == attachment && number < first)
}

/// Adds a range at a place, joined to the next one where they meet.
fn add_at(ranges: &mut Vec<Range>, place: usize, range: Range)
    requires place { place ≤ vec_len ranges.old }
    requires room { vec_len ranges.old < vec_capacity ranges.old }
    ensures added { ranges.new.items ≡ take place ranges.old.items ++ glue (range ∷ []) (drop place ranges.old.items) }
    ensures room { vec_capacity ranges.old ≤ vec_capacity ranges.new }
{
    if place < ranges.len() && do_meet(&range, &ranges[place]) {
        let last = ranges[place].last;
        ranges[place] = Range { last, ..range };
        return;
    }
    let inserted = ranges.insert(place, range);
    prove!(inserted.is_ok());
    let _ = inserted;
}

/// Joins the two ranges at a place, where they meet.
fn join_at(ranges: &mut Vec<Range>, place: usize)
    requires { place ≤ vec_len ranges.old }
    ensures joined { ranges.new.items ≡ glue (take place ranges.old.items) (drop place ranges.old.items) }
    ensures room { vec_capacity ranges.old ≤ vec_capacity ranges.new }
{
    if place == 0 || place == ranges.len() {
        return;
    }
    let range = ranges[place - 1];
    if do_meet(&range, &ranges[place]) {
        let after = ranges.remove(place);
        ranges[place - 1] = Range {
            last: after.last,
            ..range
        };
    }
}

fn do_meet(range: &Range, next: &Range) -> bool
    ensures { result ≡ meets range.now next.now }
{
    range.attachment == next.attachment && u64::from(range.last) + 1 == u64::from(next.first)
}
