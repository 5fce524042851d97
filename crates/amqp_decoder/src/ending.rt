//! How a run ends.
ghost use Rattle.std.specs.Prelude.{◌≡◌};
ghost use Rattle.amqp_decoder.specs.Ending.{exit_code_of};

use amqp_conversation::decode::BadBytes as Bad;
use std::fmt;

/// How a run that decodes ended.
#[derive(Clone, Copy, Debug, PartialEq, Eq)]
pub enum Ending {
    /// All lines were written.
    Done,
    /// Memory was wanting.
    Memory,
    /// The source failed.
    ReadFault,
    /// The sink failed; a front of the lines was written.
    WriteFault,
    /// There were more bytes than the limit.
    TooLong,
    /// The lines were written up to the first byte that begins neither a header nor a frame.
    BadBytes(Bad),
    /// What was read is no hexadecimal.
    NoHexadecimal,
}

impl Ending {
    /// The number with which the process ends.
    pub fn exit_code(self) -> u8
        ensures { result ≡ exit_code_of self }
    {
        match self {
            Ending::Done => 0,
            Ending::Memory => 5,
            Ending::ReadFault => 6,
            Ending::WriteFault => 7,
            Ending::TooLong => 8,
            Ending::BadBytes(_) => 11,
            Ending::NoHexadecimal => 12,
        }
    }
}

/// The line for standard error.
impl fmt::Display for Ending {
    fn fmt<W: fmt::Write>(&self, f: &mut fmt::Formatter<W>) -> fmt::Result {
        match *self {
            Ending::Done => f.write_str("done"),
            Ending::Memory => f.write_str("no memory"),
            Ending::ReadFault => f.write_str("read fault"),
            Ending::WriteFault => f.write_str("write fault"),
            Ending::TooLong => f.write_str("too long"),
            Ending::BadBytes(bad) => {
                let offset = bad.offset;
                let reason = bad.reason;
                match bad.fault {
                    None => write!(f, "bad bytes {offset} {reason}"),
                    Some(fault) => {
                        let place = fault.offset;
                        let why = fault.reason;
                        write!(
                            f,
                            "bad bytes {offset} {reason}: {why} at byte {place} of the frame"
                        )
                    }
                }
            }
            Ending::NoHexadecimal => f.write_str("no hexadecimal"),
        }
    }
}
