//! The performatives (OASIS AMQP 1.0, part 2, section 2.7): the described lists, read from values and written as values.
#![tactic(auto)]

pub use amqp_termini;
pub use attach::Attach;
pub use begin::Begin;
pub use close::Close;
pub use detach::Detach;
pub use disposition::Disposition;
pub use end::End;
pub use flow::Flow;
pub use open::Open;
pub use performative::Performative;
pub use transfer::Transfer;

pub mod attach;
pub mod begin;
pub mod close;
pub mod detach;
pub mod disposition;
pub mod end;
pub mod flow;
pub mod laws;
pub mod open;
pub mod performative;
pub mod transfer;
