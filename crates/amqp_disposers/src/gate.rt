//! Gates, which hold workers.
use std::thread;

/// Answers whether a worker may make a call now.
pub trait Gate {
    /// Workers count from 1, and the calls of each from 0.
    fn pass(&self, worker: u32, call: u64) -> bool;
}

/// A gate that lets every worker pass.
#[derive(Clone, Copy, Debug)]
pub struct OpenGate;

impl Gate for OpenGate {
    fn pass(&self, _worker: u32, _call: u64) -> bool {
        true
    }
}

/// How often a worker asks for one call; then it makes the call.
const TURNS: u64 = 100_000_000;

/// Asks until the gate lets the worker pass, so many times at most.
pub(crate) fn wait_for<G: Gate>(gate: &G, worker: u32, call: u64) {
    for _ in 0..TURNS {
        if gate.pass(worker, call) {
            return;
        }
        thread::yield_now();
    }
}
