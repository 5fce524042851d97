//! Ticket desks.
//!
//! At the first, which is for two calls, one seat registers a delivery, accepts it and asks for a third call. What is written are the
//! places of the receipts, the error of the third call, and how many entries the history has when the desk is closed. At the second, one
//! of two seats registers the delivery; the other takes in its note, and accepts it. At the third, which is for five calls, one seat makes
//! each call once and takes orders twice; what is written is also how many orders were handed out.
#![tactic(auto)]

pub mod row;

use crate::row::run;
use std::io;

fn main(rt: HostRuntime) -> io::Result<()> {
    let text = run(&rt, rt.alloc())?;
    print!(rt; "{text}")
}
