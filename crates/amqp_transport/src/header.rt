//! Protocol headers (OASIS AMQP 1.0, part 2, section 2.2; part 5, sections 5.2.1 and 5.3.2).
ghost use Rattle.std.specs.Prelude.{◌≡◌, ◌↔◌, IsTrue, Some, None};
ghost use Rattle.amqp_transport.specs.Header.{id_number, header_bytes, version_1};
ghost use Rattle.amqp_transport.specs.declared.header.ProtocolId.TheVariants.{Amqp, Tls, Sasl};
ghost use Rattle.amqp_transport.specs.declared.header.ProtocolHeader.{ProtocolHeader};

/// What is spoken behind a protocol header.
#[derive(Clone, Copy, Debug, PartialEq, Eq)]
pub enum ProtocolId {
    /// AMQP.
    Amqp,
    /// TLS.
    Tls,
    /// The SASL layer.
    Sasl,
}

impl ProtocolId {
    /// The number of the protocol.
    pub fn number(self) -> u8
        ensures { result ≡ id_number self }
    {
        match self {
            ProtocolId::Amqp => 0,
            ProtocolId::Tls => 2,
            ProtocolId::Sasl => 3,
        }
    }
}

/// Eight bytes that say which protocol follows, and in which version.
#[derive(Clone, Copy, Debug, PartialEq, Eq)]
pub struct ProtocolHeader {
    /// What follows.
    pub id: ProtocolId,
    /// The major number of the version.
    pub major: u8,
    /// The minor number.
    pub minor: u8,
    /// The revision.
    pub revision: u8,
}

impl ProtocolHeader {
    /// AMQP 1.0.0.
    pub fn amqp() -> Self
        ensures { result ≡ version_1 Amqp }
    {
        ProtocolHeader::version_1(ProtocolId::Amqp)
    }

    /// TLS 1.0.0.
    pub fn tls() -> Self
        ensures { result ≡ version_1 Tls }
    {
        ProtocolHeader::version_1(ProtocolId::Tls)
    }

    /// SASL 1.0.0.
    pub fn sasl() -> Self
        ensures { result ≡ version_1 Sasl }
    {
        ProtocolHeader::version_1(ProtocolId::Sasl)
    }

    fn version_1(id: ProtocolId) -> Self
        ensures { result ≡ version_1 id }
    {
        ProtocolHeader {
            id,
            major: 1,
            minor: 0,
            revision: 0,
        }
    }

    /// Whether the SASL layer follows.
    pub fn is_sasl(&self) -> bool
        ensures { IsTrue result ↔ (self.now.id ≡ Sasl) }
    {
        matches!(self.id, ProtocolId::Sasl)
    }

    /// Whether TLS follows.
    pub fn is_tls(&self) -> bool
        ensures { IsTrue result ↔ (self.now.id ≡ Tls) }
    {
        matches!(self.id, ProtocolId::Tls)
    }

    /// The eight bytes.
    pub fn to_bytes(&self) -> [u8; 8]
        ensures { result ≡ header_bytes self.now }
    {
        [
            b'A',
            b'M',
            b'Q',
            b'P',
            self.id.number(),
            self.major,
            self.minor,
            self.revision,
        ]
    }

    /// The header that the bytes say: none exactly where they are those of none.
    pub fn from_bytes(bytes: [u8; 8]) -> Option<Self>
        ensures some { (h : ProtocolHeader) → result ≡ Some h → bytes ≡ header_bytes h }
        ensures none { result ≡ None → (h : ProtocolHeader) → bytes ≡ header_bytes h → ⊥ }
    {
        let [b'A', b'M', b'Q', b'P', number, major, minor, revision] = bytes else {
            return None;
        };
        let id = match number {
            0 => ProtocolId::Amqp,
            2 => ProtocolId::Tls,
            3 => ProtocolId::Sasl,
            _ => return None,
        };
        Some(ProtocolHeader {
            id,
            major,
            minor,
            revision,
        })
    }
}
