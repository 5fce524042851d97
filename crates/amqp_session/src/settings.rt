//! What a session is built with (OASIS AMQP 1.0, part 2, section 2.7.2).
use amqp_data::SymbolList;
use amqp_fields::FieldMap;

/// What a session is built with: the fields of its Begin, and the limit of its frames.
#[derive(Drop)]
pub struct SessionSettings {
    /// The number of the first transfer.
    pub next_outgoing_id: u32,
    /// How many transfers the session takes, announced in each Begin and Flow.
    pub incoming_window: u32,
    /// How many transfers the session may send, announced in each Begin and Flow.
    pub outgoing_window: u32,
    /// The highest handle that the peer may use.
    pub handle_max: u32,
    /// The extensions that the session supports.
    pub offered_capabilities: Option<SymbolList>,
    /// The extensions that the session uses where the peer has them.
    pub desired_capabilities: Option<SymbolList>,
    /// Properties of the session.
    pub properties: Option<FieldMap>,
    /// The limit of frames by which deliveries are split, in bytes.
    pub max_frame_size: u32,
}
