//! How a run ends.
ghost use Rattle.std.specs.Prelude.{◌≡◌};
ghost use Rattle.amqp_disposers.specs.Ending.{exit_code_of, ending_for};

use amqp_threads::error::DeskError;
use std::fmt;

/// How a run of disposers ended.
#[derive(Clone, Copy, Debug, PartialEq, Eq)]
pub enum Ending {
    /// Both lines were written.
    Done,
    /// Memory was wanting.
    Memory,
    /// The sink failed; a front of the lines was written.
    WriteFault,
    /// A seat keeps a receipt that does not stand in the history.
    Differs,
}

impl Ending {
    /// The number with which the process ends.
    pub fn exit_code(self) -> u8
        ensures { result ≡ exit_code_of self }
    {
        match self {
            Ending::Done => 0,
            Ending::Memory => 5,
            Ending::WriteFault => 7,
            Ending::Differs => 9,
        }
    }
}

/// The line for standard error.
impl fmt::Display for Ending {
    fn fmt<W: fmt::Write>(&self, f: &mut fmt::Formatter<W>) -> fmt::Result {
        match *self {
            Ending::Done => f.write_str("done"),
            Ending::Memory => f.write_str("no memory"),
            Ending::WriteFault => f.write_str("write fault"),
            Ending::Differs => f.write_str("differs"),
        }
    }
}

/// How a run ends whose desk answered an error.
pub(crate) fn ending_of(error: DeskError) -> Ending
    ensures { result ≡ ending_for error }
{
    match error {
        DeskError::Memory(_) => Ending::Memory,
        DeskError::Differs {
            receipt: _,
            entry: _,
        } => Ending::Differs,
    }
}
