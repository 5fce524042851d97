//! Tests of links, sources and sinks in memory that fail, and of a codec over such a link, which data cannot make. They are a
//! crate of their own, so that amqp_wire is not proved anew with them.
#![tactic(auto)]

#[cfg(test)]
mod tests;
