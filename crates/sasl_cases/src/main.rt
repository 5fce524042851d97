//! Passwords, keys and the texts of SCRAM against values from outside.
//!
//! Each line of a file is a case, `GIVEN => WANTED`. A file `NAME.keys` has keys, `NAME.codes` authentication codes (`keys`),
//! `NAME.scram` texts of SCRAM (`scram`), and `NAME.urls` URLs (`urls`). For each file the program writes each case that comes
//! out otherwise, with what came, and then how many of its cases are the same.
#![tactic(auto)]

pub mod error;
pub mod keys;
pub mod scram;
pub mod urls;

use crate::error::CaseError;
use case_files::{Tally, names, read_case};
use std::alloc::Global;
use std::rt::Files;
use std::{fs, io};

/// What the cases of a file are.
#[derive(Clone, Copy, Debug, PartialEq, Eq)]
enum Kind {
    /// Keys.
    Keys,
    /// Authentication codes.
    Codes,
    /// Texts of SCRAM.
    Scram,
    /// URLs.
    Urls,
}

impl Kind {
    /// What a file of this name has.
    fn of(name: &str) -> Option<Self> {
        match name.rsplit_once('.')? {
            (_, "keys") => Some(Kind::Keys),
            (_, "codes") => Some(Kind::Codes),
            (_, "scram") => Some(Kind::Scram),
            (_, "urls") => Some(Kind::Urls),
            _ => None,
        }
    }

    /// What comes of a case.
    fn outcome(self, alloc: Global, given: &str) -> Result<String, CaseError> {
        match self {
            Kind::Keys => keys::key(alloc, given),
            Kind::Codes => keys::code(alloc, given),
            Kind::Scram => scram::texts(alloc, given),
            Kind::Urls => urls::profile(alloc, given),
        }
    }
}

/// Makes the cases of a file, and writes what is to be said of it.
fn run_file(rt: &(impl Files + AllocGlobal + Print), name: &str, kind: Kind) -> io::Result<()> {
    let text = fs::read_to_string(rt, name)?;
    let mut tally = Tally::new();
    for line in text.lines() {
        let Some(case) = read_case(line) else {
            continue;
        };
        let came = kind.outcome(rt.alloc(), case.given);
        let is_same = matches!(&came, Ok(text) if text.as_str() == case.wanted);
        tally.count(is_same);
        if !is_same {
            let given = case.given;
            println!(rt; "{given}\n  {came:?}")?;
        }
    }
    println!(rt; "{name}: {tally}")
}

fn main(rt: HostRuntime) -> io::Result<()> {
    for name in &names(&rt)? {
        if let Some(kind) = Kind::of(name.as_str()) {
            run_file(&rt, name.as_str(), kind)?;
        }
    }
    Ok(())
}
