//! The codec of AMQP 1.0 in one place: values, performatives, messages and SASL bodies, read from bytes and written as bytes.
//!
//! All of it stands in the crates that are passed on here, each with its contracts; a program that reads or writes messages needs no other.
#![tactic(auto)]

pub use amqp_composites::{Error, ReceiverSettleMode, Role, SenderSettleMode};
pub use amqp_data::{
    Binary, Described, Entry, MapError, OrderedMap, Symbol, SymbolList, Text, Timestamp, Uuid,
    Value, ValueArray, ValueList,
};
pub use amqp_fields::{AnnotationMap, BaseError, FieldMap, TextMap};
pub use amqp_frames::{FRAME_TYPE_AMQP, FrameBody, decode_body, encode_body, let_go};
pub use amqp_message_pieces::decode_message_pieces;
pub use amqp_messages::{Body, FromBody, Message, OneOrMore, decode_message, encode_message};
pub use amqp_performatives::{
    Attach, Begin, Close, Detach, Disposition, End, Flow, Open, Performative, Transfer,
};
pub use amqp_sasl_bodies::{
    FRAME_TYPE_SASL, SaslBody, SaslChallenge, SaslCode, SaslInit, SaslMechanisms, SaslOutcome,
    SaslResponse, decode_sasl, encode_sasl,
};
pub use amqp_sections::{Header, MessageId, Properties};
pub use amqp_sizes::{body_size, performative_size};
pub use amqp_skips::{section_start, skip_value};
pub use amqp_termini::{
    Accepted, DeliveryState, Modified, Outcome, Received, Rejected, Released, Source, Target,
    TargetArchetype,
};
pub use amqp_text::{SymbolError, TextError};
pub use amqp_value::{
    PayloadBytes, PayloadList, PayloadReader, ValueError, read_value, serialized_size, to_vec,
};
pub use condition::{Condition, error_of};
pub use kinds::{AsKind, get_symbol, get_text};
pub use messages::{message_of_bytes, message_of_text, no_header, no_properties};
pub use values::{bytes_value, symbol_value, text_value};
pub use whole::{WholeValueError, read_whole_value};

pub mod condition;
pub mod kinds;
pub mod laws;
pub mod messages;
pub mod performatives;
pub mod sasl;
pub mod termini;
pub mod values;
pub mod whole;
