//! What follows of the contracts, over whole streams (OASIS AMQP 1.0, part 2, section 2.3).
ghost use Rattle.std.specs.Prelude.{◌≡◌, ◌++◌, ℕ, List, [], map, All};
ghost use Rattle.amqp_wire.specs.Frame.{frame_of};
ghost use Rattle.amqp_transport.specs.Stream.{IsFrame, Joined, IsPart, HasFrame, AreFirst, stream_of};

use crate::kind::FrameKind;

/// The frames that bytes carry do not depend on how they were cut.
pub fn one_reading<F: FrameKind>()
    ensures { (bytes : List ℕ) (xs ys : List F.Item) (r s : List ℕ) → Joined F.TYPE F.spells bytes xs r → Joined F.TYPE F.spells bytes ys s → IsPart r → IsPart s → (xs ≡ ys) × (r ≡ s) }
{}

/// What is written of an item is one frame, which spells the item as it is read again.
pub fn written_is_read<F: FrameKind>()
    ensures { (x : F.Item) → HasFrame F.spells F.canonical F.channel_of F.again x → IsFrame F.TYPE F.spells (frame_of F.TYPE (F.channel_of x) (F.canonical x)) (F.again x) }
{}

/// The frames that were given are the first of those that were written, as they are read again; what is left of the bytes that
/// were read, with those in flight, is the stream of the others.
pub fn reads_what_was_written<F: FrameKind>()
    ensures { (read flight rest : List ℕ) (xs ys : List F.Item) → All (HasFrame F.spells F.canonical F.channel_of F.again) ys → Joined F.TYPE F.spells read xs rest → read ++ flight ≡ stream_of F.TYPE F.canonical F.channel_of ys → AreFirst F.TYPE F.canonical F.channel_of F.again xs ys (rest ++ flight) }
{}

/// Where no byte is in flight and what is left is no whole frame, all were given, and nothing is left.
pub fn reads_all_that_was_written<F: FrameKind>()
    ensures { (rest : List ℕ) (xs ys : List F.Item) → All (HasFrame F.spells F.canonical F.channel_of F.again) ys → Joined F.TYPE F.spells (stream_of F.TYPE F.canonical F.channel_of ys) xs rest → IsPart rest → (xs ≡ map F.again ys) × (rest ≡ []) }
{}
