//! How the program ends.
ghost use Rattle.std.specs.Prelude.{◌≡◌};
ghost use Rattle.amqp_wire.specs.Status.{exit_code_of};

use std::fmt;

/// How a run of the program ended.
#[derive(Clone, Copy, Debug, PartialEq, Eq)]
pub enum Status {
    /// The whole text was written.
    Done,
    /// The words are no command.
    Usage,
    /// A line of the script, counted from 1, is the first outside the grammar.
    BadScript { line: u64 },
    /// A step, counted from 0, is the first that is not valid.
    BadStep { index: u64 },
    /// Memory was wanting.
    Memory,
    /// The source failed.
    ReadFault,
    /// The sink failed; a prefix of the text was written.
    WriteFault,
    /// The script is longer than the limit.
    TooLong,
}

impl Status {
    /// The number with which the process ends.
    pub fn exit_code(self) -> u8
        ensures { result ≡ exit_code_of self }
    {
        match self {
            Status::Done => 0,
            Status::Usage => 2,
            Status::BadScript { .. } => 3,
            Status::BadStep { .. } => 4,
            Status::Memory => 5,
            Status::ReadFault => 6,
            Status::WriteFault => 7,
            Status::TooLong => 8,
        }
    }
}

/// The line for standard error.
impl fmt::Display for Status {
    ghost use Rattle.std.specs.Prelude.{Some};
    ghost use Rattle.amqp_wire.specs.Status.{line_of};

    ghost output = { λ s. Some (line_of s) };

    fn fmt<W: fmt::Write>(&self, f: &mut fmt::Formatter<W>) -> fmt::Result {
        match *self {
            Status::Done => f.write_str("done"),
            Status::Usage => f.write_str("usage"),
            Status::BadScript { line } => write!(f, "bad script {line}"),
            Status::BadStep { index } => write!(f, "bad step {index}"),
            Status::Memory => f.write_str("no memory"),
            Status::ReadFault => f.write_str("read fault"),
            Status::WriteFault => f.write_str("write fault"),
            Status::TooLong => f.write_str("too long"),
        }
    }
}
