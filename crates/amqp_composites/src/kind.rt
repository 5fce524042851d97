//! The descriptors of the described lists.
ghost use Rattle.std.specs.Prelude.{◌≡◌};
ghost use Rattle.amqp_composites.specs.Kind.{number_of, name_of, kind_numbered, kind_named};

/// Which of the standard's lists a described list is.
#[derive(Clone, Copy, Debug, PartialEq, Eq)]
pub enum CompositeKind {
    /// `open`.
    Open,
    /// `begin`.
    Begin,
    /// `attach`.
    Attach,
    /// `flow`.
    Flow,
    /// `transfer`.
    Transfer,
    /// `disposition`.
    Disposition,
    /// `detach`.
    Detach,
    /// `end`.
    End,
    /// `close`.
    Close,
    /// `error`.
    Error,
    /// `received`.
    Received,
    /// `accepted`.
    Accepted,
    /// `rejected`.
    Rejected,
    /// `released`.
    Released,
    /// `modified`.
    Modified,
    /// `source`.
    Source,
    /// `target`.
    Target,
    /// `coordinator`.
    Coordinator,
    /// `declared`.
    Declared,
    /// `transactional-state`.
    TransactionalState,
    /// `sasl-mechanisms`.
    SaslMechanisms,
    /// `sasl-init`.
    SaslInit,
    /// `sasl-challenge`.
    SaslChallenge,
    /// `sasl-response`.
    SaslResponse,
    /// `sasl-outcome`.
    SaslOutcome,
    /// `header`.
    Header,
    /// `properties`.
    Properties,
}

impl CompositeKind {
    /// The number of the descriptor.
    pub fn number(self) -> u8
        ensures { result ≡ number_of self }
    {
        match self {
            CompositeKind::Open => 0x10,
            CompositeKind::Begin => 0x11,
            CompositeKind::Attach => 0x12,
            CompositeKind::Flow => 0x13,
            CompositeKind::Transfer => 0x14,
            CompositeKind::Disposition => 0x15,
            CompositeKind::Detach => 0x16,
            CompositeKind::End => 0x17,
            CompositeKind::Close => 0x18,
            CompositeKind::Error => 0x1d,
            CompositeKind::Received => 0x23,
            CompositeKind::Accepted => 0x24,
            CompositeKind::Rejected => 0x25,
            CompositeKind::Released => 0x26,
            CompositeKind::Modified => 0x27,
            CompositeKind::Source => 0x28,
            CompositeKind::Target => 0x29,
            CompositeKind::Coordinator => 0x30,
            CompositeKind::Declared => 0x33,
            CompositeKind::TransactionalState => 0x34,
            CompositeKind::SaslMechanisms => 0x40,
            CompositeKind::SaslInit => 0x41,
            CompositeKind::SaslChallenge => 0x42,
            CompositeKind::SaslResponse => 0x43,
            CompositeKind::SaslOutcome => 0x44,
            CompositeKind::Header => 0x70,
            CompositeKind::Properties => 0x73,
        }
    }

    /// The kind whose descriptor has that number.
    pub fn with_number(number: u64) -> Option<CompositeKind>
        ensures { result ≡ kind_numbered number }
    {
        match number {
            0x10 => Some(CompositeKind::Open),
            0x11 => Some(CompositeKind::Begin),
            0x12 => Some(CompositeKind::Attach),
            0x13 => Some(CompositeKind::Flow),
            0x14 => Some(CompositeKind::Transfer),
            0x15 => Some(CompositeKind::Disposition),
            0x16 => Some(CompositeKind::Detach),
            0x17 => Some(CompositeKind::End),
            0x18 => Some(CompositeKind::Close),
            0x1d => Some(CompositeKind::Error),
            0x23 => Some(CompositeKind::Received),
            0x24 => Some(CompositeKind::Accepted),
            0x25 => Some(CompositeKind::Rejected),
            0x26 => Some(CompositeKind::Released),
            0x27 => Some(CompositeKind::Modified),
            0x28 => Some(CompositeKind::Source),
            0x29 => Some(CompositeKind::Target),
            0x30 => Some(CompositeKind::Coordinator),
            0x33 => Some(CompositeKind::Declared),
            0x34 => Some(CompositeKind::TransactionalState),
            0x40 => Some(CompositeKind::SaslMechanisms),
            0x41 => Some(CompositeKind::SaslInit),
            0x42 => Some(CompositeKind::SaslChallenge),
            0x43 => Some(CompositeKind::SaslResponse),
            0x44 => Some(CompositeKind::SaslOutcome),
            0x70 => Some(CompositeKind::Header),
            0x73 => Some(CompositeKind::Properties),
            _ => None,
        }
    }

    /// The name of the descriptor.
    pub fn name(self) -> &'static [u8]
        ensures { result.now ≡ name_of self }
    {
        match self {
            CompositeKind::Open => b"amqp:open:list",
            CompositeKind::Begin => b"amqp:begin:list",
            CompositeKind::Attach => b"amqp:attach:list",
            CompositeKind::Flow => b"amqp:flow:list",
            CompositeKind::Transfer => b"amqp:transfer:list",
            CompositeKind::Disposition => b"amqp:disposition:list",
            CompositeKind::Detach => b"amqp:detach:list",
            CompositeKind::End => b"amqp:end:list",
            CompositeKind::Close => b"amqp:close:list",
            CompositeKind::Error => b"amqp:error:list",
            CompositeKind::Received => b"amqp:received:list",
            CompositeKind::Accepted => b"amqp:accepted:list",
            CompositeKind::Rejected => b"amqp:rejected:list",
            CompositeKind::Released => b"amqp:released:list",
            CompositeKind::Modified => b"amqp:modified:list",
            CompositeKind::Source => b"amqp:source:list",
            CompositeKind::Target => b"amqp:target:list",
            CompositeKind::Coordinator => b"amqp:coordinator:list",
            CompositeKind::Declared => b"amqp:declared:list",
            CompositeKind::TransactionalState => b"amqp:transactional-state:list",
            CompositeKind::SaslMechanisms => b"amqp:sasl-mechanisms:list",
            CompositeKind::SaslInit => b"amqp:sasl-init:list",
            CompositeKind::SaslChallenge => b"amqp:sasl-challenge:list",
            CompositeKind::SaslResponse => b"amqp:sasl-response:list",
            CompositeKind::SaslOutcome => b"amqp:sasl-outcome:list",
            CompositeKind::Header => b"amqp:header:list",
            CompositeKind::Properties => b"amqp:properties:list",
        }
    }

    /// The kind whose descriptor has that name.
    pub fn with_name(name: &[u8]) -> Option<CompositeKind>
        ensures { result ≡ kind_named name.now }
    {
        KINDS.iter().copied().find(|kind| name == kind.name())
    }
}

const KINDS: [CompositeKind; 27] = [
    CompositeKind::Open,
    CompositeKind::Begin,
    CompositeKind::Attach,
    CompositeKind::Flow,
    CompositeKind::Transfer,
    CompositeKind::Disposition,
    CompositeKind::Detach,
    CompositeKind::End,
    CompositeKind::Close,
    CompositeKind::Error,
    CompositeKind::Received,
    CompositeKind::Accepted,
    CompositeKind::Rejected,
    CompositeKind::Released,
    CompositeKind::Modified,
    CompositeKind::Source,
    CompositeKind::Target,
    CompositeKind::Coordinator,
    CompositeKind::Declared,
    CompositeKind::TransactionalState,
    CompositeKind::SaslMechanisms,
    CompositeKind::SaslInit,
    CompositeKind::SaslChallenge,
    CompositeKind::SaslResponse,
    CompositeKind::SaslOutcome,
    CompositeKind::Header,
    CompositeKind::Properties,
];
