//! Runs of a listener and of a client over a link in memory, against the bytes of foreign peers.
//!
//! Each file `NAME.runs` of the folder has cases (`case_files` and `run` say how they are written). For each file the program
//! writes how many cases came to what they say, and before it each case that did not, with what came.
#![tactic(auto)]

pub mod error;
pub mod later;
pub mod run;

use crate::run::outcome;
use case_files::{Block, Tally, has_lines, names, read_block};
use std::rt::Runtime;
use std::sync::Wait;
use std::{fs, io, str};

/// Whether a case comes to what it says; writes what came where it does not.
fn is_same(rt: &(impl Runtime + AllocGlobal + Wait), block: Block<'_>) -> io::Result<bool> {
    let name = block.name;
    match outcome(rt, block.given) {
        Ok(written) => {
            let text = str::from_utf8(written.as_slice()).unwrap_or("no text");
            let text = text.trim();
            let is_same = has_lines(text, block.wanted);
            if !is_same {
                println!(rt; "{name}:\n{text}")?;
            }
            Ok(is_same)
        }
        Err(error) => {
            println!(rt; "{name}: {error:?}")?;
            Ok(false)
        }
    }
}

/// Tries the cases of a file.
fn report(rt: &(impl Runtime + AllocGlobal + Wait), name: &str) -> io::Result<()> {
    let text = fs::read_to_string(rt, name)?;
    let mut tally = Tally::new();
    for part in text.split("\n= ").skip(1) {
        if let Some(block) = read_block(part) {
            tally.count(is_same(rt, block)?);
        } else {
            tally.count(false);
        }
    }
    println!(rt; "{name}: {tally}")
}

fn main(rt: HostRuntime) -> io::Result<()> {
    for name in &names(&rt)? {
        let name = name.as_str();
        if name.ends_with(".runs") {
            report(&rt, name)?;
        }
    }
    Ok(())
}
