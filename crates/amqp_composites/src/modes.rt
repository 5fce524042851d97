//! Roles and settle modes (OASIS AMQP 1.0, part 2, sections 2.8.1 to 2.8.3).
ghost use Rattle.std.specs.Prelude.{◌≡◌};
ghost use Rattle.amqp_composites.specs.declared.modes.Role.TheVariants.{Sender, Receiver};
ghost use Rattle.amqp_composites.specs.Modes.{role_in, of_role, sender_mode_in, of_sender_mode, receiver_mode_in, of_receiver_mode, same_sender_mode, same_receiver_mode, role_again, sender_mode_again, receiver_mode_again, sender_modes_are, receiver_modes_are, sender_mode_number, receiver_mode_number};

use amqp_fields::amqp_data::Value;
use amqp_fields::{BaseError, Defaulted, Field};
use std::alloc::Global;

/// The role of an end on a link (section 2.8.1).
#[derive(Clone, Copy, Debug, PartialEq, Eq)]
pub enum Role {
    /// It sends.
    Sender,
    /// It receives.
    Receiver,
}

/// When the sender settles (section 2.8.2).
#[derive(Clone, Copy, Debug, PartialEq, Eq)]
pub enum SenderSettleMode {
    /// All deliveries are sent unsettled.
    Unsettled,
    /// All deliveries are sent settled.
    Settled,
    /// Each as the sender likes.
    Mixed,
}

/// When the receiver settles (section 2.8.3).
#[derive(Clone, Copy, Debug, PartialEq, Eq)]
pub enum ReceiverSettleMode {
    /// First, before the sender has settled.
    First,
    /// Second, after the sender has settled.
    Second,
}

impl SenderSettleMode {
    /// The number of the mode.
    pub fn number(self) -> u8
        ensures { result ≡ sender_mode_number self }
    {
        match self {
            SenderSettleMode::Unsettled => 0,
            SenderSettleMode::Settled => 1,
            SenderSettleMode::Mixed => 2,
        }
    }
}

impl ReceiverSettleMode {
    /// The number of the mode.
    pub fn number(self) -> u8
        ensures { result ≡ receiver_mode_number self }
    {
        match self {
            ReceiverSettleMode::First => 0,
            ReceiverSettleMode::Second => 1,
        }
    }
}

impl Field for Role {
    ghost reads = { role_in };

    ghost writes = { of_role };

    ghost valid = { λ _. Unit {0} };

    fn from_value(_alloc: Global, value: Value) -> Result<Self, BaseError> {
        match value {
            Value::Bool(receives) => {
                if receives {
                    Ok(Role::Receiver)
                } else {
                    Ok(Role::Sender)
                }
            }
            _ => Err(BaseError::Decode),
        }
    }

    fn to_value(&self, _alloc: Global) -> Result<Value, BaseError> {
        match self {
            Role::Sender => Ok(Value::Bool(false)),
            Role::Receiver => Ok(Value::Bool(true)),
        }
    }

    ghost again = { role_again };

    ghost there = { elim [ Sender ↦ tt | Receiver ↦ tt ] };
}

impl Field for SenderSettleMode {
    ghost reads = { sender_mode_in };

    ghost writes = { of_sender_mode };

    ghost valid = { λ _. Unit {0} };

    fn from_value(_alloc: Global, value: Value) -> Result<Self, BaseError> {
        match value {
            Value::Ubyte(0) => Ok(SenderSettleMode::Unsettled),
            Value::Ubyte(1) => Ok(SenderSettleMode::Settled),
            Value::Ubyte(2) => Ok(SenderSettleMode::Mixed),
            _ => Err(BaseError::Decode),
        }
    }

    fn to_value(&self, _alloc: Global) -> Result<Value, BaseError> {
        Ok(Value::Ubyte(self.number()))
    }

    ghost again = { sender_mode_again };

    ghost there = { λ x. tt };
}

impl Defaulted for SenderSettleMode {
    ghost same = { same_sender_mode };

    fn is(&self, other: &Self) -> bool {
        self.number() == other.number()
    }

    ghost decides = { sender_modes_are };
}

impl Field for ReceiverSettleMode {
    ghost reads = { receiver_mode_in };

    ghost writes = { of_receiver_mode };

    ghost valid = { λ _. Unit {0} };

    fn from_value(_alloc: Global, value: Value) -> Result<Self, BaseError> {
        match value {
            Value::Ubyte(0) => Ok(ReceiverSettleMode::First),
            Value::Ubyte(1) => Ok(ReceiverSettleMode::Second),
            _ => Err(BaseError::Decode),
        }
    }

    fn to_value(&self, _alloc: Global) -> Result<Value, BaseError> {
        Ok(Value::Ubyte(self.number()))
    }

    ghost again = { receiver_mode_again };

    ghost there = { λ x. tt };
}

impl Defaulted for ReceiverSettleMode {
    ghost same = { same_receiver_mode };

    fn is(&self, other: &Self) -> bool {
        self.number() == other.number()
    }

    ghost decides = { receiver_modes_are };
}
