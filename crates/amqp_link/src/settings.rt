//! What an end that accepts links is built with (OASIS AMQP 1.0, part 2, section 2.7.3).
use amqp_data::Text;

/// What an end says of a link as it answers the peer's Attach.
#[derive(Debug, Drop)]
pub struct AcceptSettings {
    /// The largest message, in bytes, where there is a limit.
    pub max_message_size: Option<u64>,
    /// Where the delivery-count of a sender begins.
    pub initial_delivery_count: u32,
    /// The address of the nodes that this end makes; where there is none it makes none.
    pub dynamic_address: Option<Text>,
}
