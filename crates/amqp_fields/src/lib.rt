//! The fields of described lists (OASIS AMQP 1.0, part 1, section 1.4): reading them from values, writing them.
#![tactic(auto)]

pub use amqp_data;
pub use copy::{TryClone, copied_all};
pub use defaulted::Defaulted;
pub use error::BaseError;
pub use field::Field;
pub use fields::Fields;
pub use map::{AnnotationMap, FieldMap, KeyKind, TextMap};
pub use writer::FieldWriter;

pub mod copy;
pub mod defaulted;
pub mod error;
pub mod field;
pub mod fields;
pub mod laws;
pub mod map;
pub mod writer;
