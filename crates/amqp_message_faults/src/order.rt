//! The order of the sections (OASIS AMQP 1.0, part 3, section 3.2).
ghost use Rattle.std.specs.Prelude.{◌≡◌, ◌&&◌};
ghost use Rattle.amqp_data.specs.View.{view};
ghost use Rattle.amqp_messages.specs.Kind.{is_descriptor};
ghost use Rattle.amqp_message_faults.specs.Order.{follows, next_kind};

use amqp_data::Value;
use amqp_messages::SectionKind;

const KINDS: [SectionKind; 9] = [
    SectionKind::Header,
    SectionKind::DeliveryAnnotations,
    SectionKind::MessageAnnotations,
    SectionKind::Properties,
    SectionKind::ApplicationProperties,
    SectionKind::Data,
    SectionKind::Sequence,
    SectionKind::Value,
    SectionKind::Footer,
];

/// Whether a section of the second kind may stand behind one of the first, or begin a message where there is none.
fn follows(last: Option<SectionKind>, kind: SectionKind) -> bool
    ensures { result ≡ follows last kind }
{
    match last {
        None => true,
        Some(SectionKind::Data) => matches!(kind, SectionKind::Data | SectionKind::Footer),
        Some(SectionKind::Sequence) => matches!(kind, SectionKind::Sequence | SectionKind::Footer),
        Some(before) => before.number() < kind.number(),
    }
}

/// Whether the descriptor is that of the kind, and the kind may stand there.
fn is_next(last: Option<SectionKind>, kind: SectionKind, descriptor: &Value) -> bool
    ensures { result ≡ (follows last kind && is_descriptor kind (view descriptor.now)) }
{
    follows(last, kind) && kind.is_descriptor(descriptor)
}

/// The kind of section whose descriptor it is, of those that may stand behind one of the first kind.
pub fn next_kind(last: Option<SectionKind>, descriptor: &Value) -> Option<SectionKind>
    ensures { result ≡ next_kind last (view descriptor.now) }
{
    KINDS
        .iter()
        .copied()
        .find(|kind| is_next(last, *kind, descriptor))
}
