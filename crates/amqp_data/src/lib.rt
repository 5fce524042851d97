//! AMQP values (OASIS AMQP 1.0, part 1, section 1.6): every kind but float, double and the decimals, with lists, maps with
//! distinct keys, arrays of one scalar kind and described values, their equality, hash and copies, and how deep they are
//! nested. What each value is as data is in specs/Data.antt.
#![tactic(auto)]

pub use amqp_text;
pub use amqp_text::{Binary, Symbol, SymbolList, Text};
pub use array::ArrayError;
pub use kind::ElementKind;
pub use map::MapError;
pub use nesting::{entries_nest_within, nests_within, values_nest_within};
pub use value::{Described, Entry, OrderedMap, Timestamp, Uuid, Value, ValueArray, ValueList};

pub mod array;
mod copy;
mod described;
mod from;
mod hash;
pub mod kind;
pub mod laws;
mod list;
pub mod map;
pub mod nesting;
mod same;
pub mod value;
