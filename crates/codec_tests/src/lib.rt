//! Tests of the codec that bytes cannot spell. What bytes can spell are cases of the program `amqp_cases`.
#![tactic(auto)]

#[cfg(test)]
mod map_tests;
#[cfg(test)]
mod message_tests;
#[cfg(test)]
mod payload_tests;
#[cfg(test)]
mod state_tests;
