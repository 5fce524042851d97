//! Described values in bytes (OASIS AMQP 1.0, part 1, section 1.2), read and written with the errors of bodies.
#![tactic(auto)]

pub use amqp_composites;
pub use amqp_composites::amqp_fields;
pub use amqp_value::amqp_data;
pub use bodies::{LEVELS, put_alone, put_fields};
pub use error::body_error;
pub use reading::{read_front, read_whole};
pub use writing::{
    write_described_binary, write_described_fields, write_described_list, write_described_map,
    write_described_value,
};

pub mod bodies;
pub mod error;
pub mod reading;
pub mod writing;
