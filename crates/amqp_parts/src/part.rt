//! A part of a delivery.
ghost use Rattle.std.specs.Prelude.{◌≡◌};

use amqp_performatives::transfer::Transfer;
use bytes::Bytes;

/// A part of a delivery, or all of it.
#[derive(Debug)]
pub struct Part {
    /// What its frame says.
    pub transfer: Transfer,
    /// Its bytes.
    pub payload: Bytes,
}

// A part is let go by a call, so that no caller sees the fields of its frame.
impl Drop for Part {
    fn drop(self) {
        let Part { transfer, payload } = self;
        drop(transfer);
        drop(payload);
    }
}

impl Part {
    /// What its frame says, and its bytes.
    pub fn into_parts(self) -> (Transfer, Bytes)
        ensures { (result.0 ≡ self.transfer) × (result.1 ≡ self.payload) }
    {
        let Part { transfer, payload } = self;
        (transfer, payload)
    }
}

/// Lets a Transfer go. Its drop has as many places as it has fields; for a caller of this it has one.
pub fn let_go(_transfer: Transfer) {}
