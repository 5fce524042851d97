//! What steps came to.
use crate::reply::NamedReply;

/// What one step came to.
#[derive(Debug)]
pub struct Entry {
    /// The answers that the step brought, in the order in which they came.
    pub replies: Vec<NamedReply>,
    /// The bytes that the step's end wrote.
    pub wrote: Vec<u8>,
}

// An entry is let go by a call, so that no caller sees its parts.
impl Drop for Entry {
    fn drop(self) {
        let Entry { replies, wrote } = self;
        drop(replies);
        drop(wrote);
    }
}

/// One entry for each step made, in order.
#[derive(Debug)]
pub struct Trace {
    /// The entries.
    pub entries: Vec<Entry>,
}

// A trace is let go by a call, so that no caller sees its entries.
impl Drop for Trace {
    fn drop(self) {
        let Trace { entries } = self;
        drop(entries);
    }
}
