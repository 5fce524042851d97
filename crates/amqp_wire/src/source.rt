//! Where a text comes from, and where one goes.
ghost use Rattle.std.specs.Prelude.{◌≡◌, List, ℕ, Option};
ghost use Rattle.amqp_wire.specs.Link.{HasCause};
ghost use Rattle.amqp_wire.specs.Source.{SourceReads, SinkWrites};

/// What a read of a source answered.
#[derive(Clone, Copy, Debug, PartialEq, Eq)]
pub enum SourceRead {
    /// So many bytes stand at the front of the buffer. None, where the buffer has room,
    /// means the same as `End`.
    Bytes(usize),
    /// The source has ended.
    End,
    /// The source failed, and nothing moved.
    Failed,
}

/// What a write to a sink answered.
#[derive(Clone, Copy, Debug, PartialEq, Eq)]
pub enum SinkWrite {
    /// So many bytes of the front were taken: at least one, if there are any.
    Took(usize),
    /// The sink failed, and nothing moved.
    Failed,
    /// Memory was wanting, and nothing moved.
    Memory,
}

/// Where bytes come from, as standard input.
///
/// It counts its faults, up to the last value of a `u64`; the count never falls.
pub trait Source: Drop {
    /// What is left, where it is known.
    ghost left: { Self → Option (List ℕ) };

    /// How often the source has failed.
    ghost faults: { Self → ℕ };

    /// Reads bytes into the front of the buffer. An end, also one told by no bytes, comes
    /// only where nothing is left or the buffer is empty.
    fn read(&mut self, buf: &mut [u8]) -> SourceRead
        ensures bytes { SourceReads (left self.old) (left self.new) result buf.new }
        ensures cause { HasCause (faults self.old) (faults self.new) (result ≡ SourceRead.Failed) };
}

/// Where bytes go, as standard output.
///
/// It counts its faults, up to the last value of a `u64`; the count never falls.
pub trait Sink: Drop {
    /// What was written, where it is known.
    ghost written: { Self → Option (List ℕ) };

    /// How often the sink has failed.
    ghost faults: { Self → ℕ };

    /// Writes bytes of the piece's front.
    fn write(&mut self, piece: &[u8]) -> SinkWrite
        ensures bytes { SinkWrites (written self.old) (written self.new) result piece.now }
        ensures cause { HasCause (faults self.old) (faults self.new) (result ≡ SinkWrite.Failed) };
}
