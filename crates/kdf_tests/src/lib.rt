//! Tests of keys from passwords that data cannot make: functions of a user's own, arrays, parameters and algorithms.
#![tactic(auto)]

#[cfg(test)]
mod tests;
