//! Looking for a pair of an attachment and a number in ranges that rise.
ghost use Rattle.std.specs.Prelude.{◌≡◌, ◌+◌, ◌-◌, ◌*◌, ◌^◌, ◌<◌, ◌≤◌, length};
ghost use Rattle.amqp_delivery.specs.Search.{IsSorted, IsFirstRun, IsSearch, NoneBelow, NoneEndsBelow, side_is};

use crate::ranges::Range;
use crate::steps::Steps;
use std::sync::ledger::Ledger;

/// Where a pair stands beside a range.
#[derive(Clone, Copy, Debug)]
enum Side {
    Before,
    Inside,
    After,
}

fn side_of(range: &Range, attachment: u64, number: u32) -> Side
    ensures { side_is range.now attachment number result }
{
    let Range {
        attachment: of,
        first,
        last,
    } = *range;
    if attachment < of || (attachment == of && number < first) {
        Side::Before
    } else if attachment > of || number > last {
        Side::After
    } else {
        Side::Inside
    }
}

/// Where a search stands: the ranges below `low` end before the pair, and those from `high` on do not. `found` is `high`,
/// where the range there holds the pair.
#[derive(Clone, Copy, Debug)]
struct Search {
    low: usize,
    high: usize,
    found: Option<u64>,
}

/// The position of the first range that holds the pair, if one does. It looks at one range in each step, and with n ranges
/// in so many steps k that 2^k is at most 2 n + 1.
pub fn find_range<L: Ledger>(
    ranges: &[Range],
    attachment: u64,
    number: u32,
    steps: &mut Steps<L>,
) -> Option<u64>
    requires { IsSorted ranges.now }
    ensures found { IsFirstRun ranges.now attachment number result }
    ensures cost { 2 ^ (steps.new - steps.old) ≤ 2 * length ranges.now + 1 }
{
    let mut search = Search {
        low: 0,
        high: ranges.len(),
        found: None,
    };
    while search.low < search.high {
        steps.tick();
        search = narrowed(ranges, attachment, number, search);
    }
    search.found
}

/// The position of the first range that does not end before the pair, or the number of ranges.
pub(crate) fn place_of(ranges: &[Range], attachment: u64, number: u32) -> usize
    requires { IsSorted ranges.now }
    ensures within { result ≤ length ranges.now }
    ensures below { NoneBelow ranges.now attachment number result }
    ensures above { NoneEndsBelow ranges.now attachment number result }
{
    let mut search = Search {
        low: 0,
        high: ranges.len(),
        found: None,
    };
    while search.low < search.high {
        search = narrowed(ranges, attachment, number, search);
    }
    search.low
}

fn narrowed(ranges: &[Range], attachment: u64, number: u32, search: Search) -> Search
    requires sorted { IsSorted ranges.now }
    requires search { IsSearch ranges.now attachment number search }
    requires more { search.low < search.high }
    ensures search { IsSearch ranges.now attachment number result }
    ensures half { 2 * (result.high - result.low) ≤ search.high - search.low }
{
    let middle = search.low + (search.high - search.low) / 2;
    match side_of(&ranges[middle], attachment, number) {
        Side::Before => Search {
            low: search.low,
            high: middle,
            found: None,
        },
        Side::Inside => Search {
            low: search.low,
            high: middle,
            found: Some(middle as u64),
        },
        Side::After => Search {
            low: middle + 1,
            high: search.high,
            found: search.found,
        },
    }
}
