//! Deliveries in a row.
ghost use Rattle.std.specs.Prelude.{◌≡◌, ◌+◌, ◌==◌};
ghost use Rattle.amqp_delivery.specs.Book.{same_mode};

use amqp_termini::amqp_composites::modes::ReceiverSettleMode;

/// Deliveries with numbers in a row and one settle mode, which one Disposition speaks of (OASIS AMQP 1.0, part 2, section 2.7.6).
#[derive(Clone, Copy, Debug)]
pub struct Run {
    /// The first number.
    pub first: u32,
    /// The last number.
    pub last: u32,
    /// The mode of all of them.
    pub mode: ReceiverSettleMode,
}

/// Whether the modes are the same.
pub(crate) fn is_same_mode(left: ReceiverSettleMode, right: ReceiverSettleMode) -> bool
    ensures { result ≡ same_mode left right }
{
    match left {
        ReceiverSettleMode::First => matches!(right, ReceiverSettleMode::First),
        ReceiverSettleMode::Second => matches!(right, ReceiverSettleMode::Second),
    }
}

/// Whether the right number is the left one and one more: none follows the greatest.
pub fn is_consecutive(left: u32, right: u32) -> bool
    ensures { result ≡ (left + 1 == right) }
{
    u64::from(left) + 1 == u64::from(right)
}
