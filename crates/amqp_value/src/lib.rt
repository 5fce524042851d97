//! The codec of AMQP values (OASIS AMQP 1.0, part 1): one grammar for reading and writing; payloads in pieces.
#![tactic(auto)]

pub use amqp_data;
pub use amqp_data::{
    Binary, Described, ElementKind, Entry, OrderedMap, Symbol, SymbolList, Text, Timestamp, Uuid,
    Value, ValueArray, ValueList,
};
pub use error::ValueError;
pub use payload::{PayloadBytes, PayloadError, PayloadList, PayloadReader};
pub use reading::{read_value, read_value_within, read_values};
pub use size::serialized_size;
pub use writing::{to_vec, write_binary, write_fields, write_list, write_map, write_value};

mod code;
mod elements;
pub mod error;
pub mod laws;
mod octets;
pub mod payload;
pub mod reading;
mod scalars;
pub mod size;
mod width;
pub mod writing;
