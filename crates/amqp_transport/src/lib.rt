//! Frames over a link: transports, the exchange of protocol headers (OASIS AMQP 1.0, part 2, sections 2.2 and 2.3), the idle
//! time of what is read and the heartbeat of what is written (section 2.4.5). Moments and times are in milliseconds, and are given
//! by the caller.
#![tactic(auto)]

pub use amqp_frames;
pub use amqp_frames::amqp_performatives;
pub use frames::{AmqpFrames, Frame, SaslFrames};
pub use header::{ProtocolHeader, ProtocolId};
pub use heart_beat::HeartBeat;
pub use idle_clock::IdleClock;
pub use kind::FrameKind;
pub use negotiating::{
    Negotiated, Negotiating, negotiate, negotiate_amqp_header, negotiate_sasl_header,
};
pub use transport::{Error, Flush, Next, Transport};

pub mod frames;
pub mod header;
pub mod heart_beat;
pub mod idle_clock;
pub mod kind;
pub mod laws;
pub mod negotiating;
pub mod reading;
pub mod transport;
