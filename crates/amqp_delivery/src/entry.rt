//! What a book keeps of an unsettled delivery.
ghost use Rattle.std.specs.Prelude.{◌≡◌, ◌%◌, Some};
ghost use Rattle.amqp_delivery.specs.Book.{pair_of};

use amqp_termini::DeliveryState;
use std::mem;

/// An unsettled delivery, beside its tag.
#[derive(Debug)]
pub struct Kept {
    /// What was said of it, if anything was.
    pub state: Option<DeliveryState>,
    /// The attachment of the link that was current when it was registered.
    pub attachment: u64,
    /// Its delivery-id.
    pub number: u32,
}

// An entry is let go by a call, so that no caller sees what its state holds.
impl Drop for Kept {
    fn drop(self) {
        let Kept {
            state,
            attachment: _,
            number: _,
        } = self;
        drop(state);
    }
}

impl Kept {
    /// Its attachment and number.
    pub(crate) fn pair(&self) -> (u64, u32)
        ensures { result ≡ pair_of self.now }
    {
        (self.attachment, as_it_is(self.number))
    }

    /// Gives it a state, in the place of the one that it had.
    pub(crate) fn set_state(&mut self, state: DeliveryState)
        ensures { self.new ≡ record self.old { state = Some state } }
    {
        let before = mem::replace(&mut self.state, Some(state));
        drop(before);
    }
}

// The same number, which is below 2^32.
#[tactic(auto, using(crate::proofs::Keeping::small))]
fn as_it_is(number: u32) -> u32
    ensures { result ≡ number % 4294967296 }
{
    number
}
