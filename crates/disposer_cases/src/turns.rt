//! A gate that two workers have to pass in turns.
use amqp_disposers::Gate;
use std::sync::atomic::{AtomicBool, AtomicU64, Ordering};

/// How often a worker is held; then it passes.
const TURNS: u64 = 1_000_000;

/// A gate that holds the workers 1 and 2 at their second call until the other comes to its second call, so that a call of
/// each was answered.
#[derive(Drop)]
pub struct InTurns {
    first_came: AtomicBool,
    second_came: AtomicBool,
    held: AtomicU64,
}

impl InTurns {
    /// A gate to which nobody came yet.
    pub fn new() -> Self {
        InTurns {
            first_came: AtomicBool::new(false),
            second_came: AtomicBool::new(false),
            held: AtomicU64::new(0),
        }
    }

    /// Whether no worker was held too long.
    pub fn is_passed(&self) -> bool {
        self.held.load(Ordering::SeqCst) < TURNS
    }

    /// Whether the other worker came.
    fn other_came(&self, worker: u32) -> bool {
        match worker {
            1 => {
                self.first_came.store(true, Ordering::SeqCst);
                self.second_came.load(Ordering::SeqCst)
            }
            2 => {
                self.second_came.store(true, Ordering::SeqCst);
                self.first_came.load(Ordering::SeqCst)
            }
            _ => true,
        }
    }
}

impl Gate for InTurns {
    fn pass(&self, worker: u32, call: u64) -> bool {
        if call != 1 || self.other_came(worker) {
            return true;
        }
        self.held.fetch_add(1, Ordering::SeqCst) >= TURNS
    }
}
