//! Values as texts for people.
//!
//! A text is written at the end of bytes that the caller lends. No text is read back: values of other kinds may have the same text.
#![tactic(auto)]

pub mod bytes;
pub mod names;
pub mod value;
