//! A session endpoint against the frames of foreign peers.
//!
//! Each file `NAME.sessions` of the folder has cases (`case_files`, and `run` says how their lines are written). For each file the
//! program writes how many cases came to what they say, and before it each case that did not, with what came.
#![tactic(auto)]

pub mod error;
pub mod frame;
pub mod run;
pub mod settings;

use crate::run::outcome;
use case_files::{Block, Tally, names, read_block};
use std::rt::Runtime;
use std::{fs, io};

/// Whether a case comes to what it says; writes what came where it does not.
fn is_same(rt: &(impl Runtime + AllocGlobal), block: Block<'_>) -> io::Result<bool> {
    let name = block.name;
    match outcome(rt.alloc(), block.given) {
        Ok(text) => {
            let text = text.as_str().trim();
            let is_same = text == block.wanted;
            if !is_same {
                println!(rt; "{name}:\n{text}")?;
            }
            Ok(is_same)
        }
        Err(error) => {
            println!(rt; "{name}: {error:?}")?;
            Ok(false)
        }
    }
}

/// Tries the cases of a file.
fn report(rt: &(impl Runtime + AllocGlobal), name: &str) -> io::Result<()> {
    let text = fs::read_to_string(rt, name)?;
    let mut tally = Tally::new();
    for part in text.split("\n= ").skip(1) {
        if let Some(block) = read_block(part) {
            tally.count(is_same(rt, block)?);
        } else {
            tally.count(false);
        }
    }
    println!(rt; "{name}: {tally}")
}

fn main(rt: HostRuntime) -> io::Result<()> {
    let names = names(&rt)?;
    for name in names.as_slice() {
        let name = name.as_str();
        if name.ends_with(".sessions") {
            report(&rt, name)?;
        }
    }
    Ok(())
}
