//! Equality tells exactly whether two are the same.
ghost use Rattle.std.specs.Prelude.{◌≡◌, ◌↔◌, IsTrue};
ghost use Rattle.amqp_composites.specs.declared.error.Error.{Error};
ghost use Rattle.amqp_composites.specs.declared.modes.Role.{Role};
ghost use Rattle.amqp_composites.specs.declared.modes.SenderSettleMode.{SenderSettleMode};
ghost use Rattle.amqp_composites.specs.declared.modes.ReceiverSettleMode.{ReceiverSettleMode};

use crate::error::Error;
use crate::modes::{ReceiverSettleMode, Role, SenderSettleMode};

/// Two errors, roles and settle modes are equal exactly where they are the same.
pub fn equal_is_the_same()
    ensures errors { (x y : Error) → IsTrue (⟦<Error as PartialEq>⟧.eq x y) ↔ (x ≡ y) }
    ensures roles { (x y : Role) → IsTrue (⟦<Role as PartialEq>⟧.eq x y) ↔ (x ≡ y) }
    ensures sender_modes { (x y : SenderSettleMode) → IsTrue (⟦<SenderSettleMode as PartialEq>⟧.eq x y) ↔ (x ≡ y) }
    ensures receiver_modes { (x y : ReceiverSettleMode) → IsTrue (⟦<ReceiverSettleMode as PartialEq>⟧.eq x y) ↔ (x ≡ y) }
{}
