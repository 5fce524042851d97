//! What frames of a kind hold.
ghost use Rattle.std.specs.Prelude.{◌≡◌, List, ℕ, OnOk, IfOk, IsErrOf};

use amqp_data::Binary;
use amqp_fields::BaseError;
use bytes::Bytes;
use std::alloc::Global;

/// The bytes of a body, and the channel that they go on.
#[derive(Debug, Drop)]
pub struct Encoded {
    /// The channel.
    pub channel: u16,
    /// The bytes.
    pub bytes: Binary,
}

/// A kind of frames, with the grammar of their bodies (OASIS AMQP 1.0, part 2, section 2.3).
pub trait FrameKind {
    /// What a frame holds.
    type Item: Drop;

    ghost TYPE: { ℕ };

    /// The byte of the type.
    const TYPE: u8;

    /// These bytes on a channel spell the item.
    ghost spells: { ℕ → List ℕ → Self.Item → Type 0 };

    /// The bytes that are written of it, and the channel.
    ghost canonical: { Self.Item → List ℕ };

    ghost channel_of: { Self.Item → ℕ };

    /// It has no bytes, as a length in it would need more than 32 bits or a part is nested too deep.
    ghost is_oversized: { Self.Item → Type 0 };

    /// The item as it is read again.
    ghost again: { Self.Item → Self.Item };

    /// The item that the body spells: `Decode` exactly where it spells none.
    fn decode(alloc: Global, channel: u16, body: &Bytes) -> Result<Self::Item, BaseError>
        ensures ok { IfOk result (λ x. spells channel body.now x) }
        ensures none { IsErrOf result BaseError.Decode → (x : Self.Item) → spells channel body.now x → ⊥ }
        ensures size { IsErrOf result BaseError.Size → ⊥ };

    /// The bytes of the item, and the channel: `Size` exactly where it is oversized, unless memory ran out.
    fn encode(alloc: Global, item: &Self::Item) -> Result<Encoded, BaseError>
        ensures ok { IfOk result (λ b. (b.bytes ≡ canonical item.now) × (b.channel ≡ channel_of item.now)) }
        ensures spelled { IfOk result (λ b. spells b.channel b.bytes (again item.now)) }
        ensures sized { OnOk result (is_oversized item.now → ⊥) }
        ensures size { IsErrOf result BaseError.Size → is_oversized item.now }
        ensures decode { IsErrOf result BaseError.Decode → ⊥ };

    /// A body on a channel spells one item at most.
    ghost one: { (channel : ℕ) (bytes : List ℕ) (x y : Self.Item) → spells channel bytes x → spells channel bytes y → x ≡ y };
}
