//! Termini and the states of deliveries (OASIS AMQP 1.0, part 3, sections 3.4 and 3.5, and part 4, section 4.5): the described
//! lists, read from values and written as values.
#![tactic(auto)]

pub use amqp_composites;
pub use amqp_composites::amqp_fields;
pub use outcome::Outcome;
pub use source::Source;
pub use state::DeliveryState;
pub use states::{Accepted, Declared, Modified, Received, Rejected, Released};
pub use target::{Coordinator, Target};
pub use target_archetype::TargetArchetype;
pub use terminal_state::TerminalDeliveryState;
pub use transactional::TransactionalState;
pub use unsettled::{UnsettledDelivery, UnsettledMap};

pub mod laws;
pub mod outcome;
mod session_end;
pub mod source;
pub mod state;
pub mod states;
pub mod target;
pub mod target_archetype;
pub mod terminal_state;
pub mod transactional;
pub mod unsettled;
