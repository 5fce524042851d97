//! How a receiver is asked to go on.
use amqp_delivery::CreditMode;

/// How a receiver is to go on, beside the credit that it is asked to give (OASIS AMQP 1.0, part 2, section 2.6.7).
#[derive(Clone, Copy, Debug)]
pub enum Regulation {
    /// When it gives credit by itself.
    CreditMode(CreditMode),
    /// Whether it accepts each delivery as it gives it.
    AutoAccept(bool),
    /// It asks its sender to use up the credit.
    Drain,
    /// It tells its sender how the link stands.
    Properties,
}
