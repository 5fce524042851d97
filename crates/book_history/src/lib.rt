//! What a book of unsettled deliveries went through, told by its calls: entries, histories and receipts.
//!
//! A history is a list of entries, each a call with its reply, that leads from one book to another. A receipt says at
//! which place of a history an entry stands. Nothing here knows of threads; the desks at which threads share a book
//! stand on it.
#![tactic(auto)]

pub use entry::{HistoryEntry, Receipt};
pub use history::History;
pub use making::{Made, make_call};

pub mod counts;
pub mod entry;
pub mod history;
pub mod laws;
pub mod making;
pub mod same;
