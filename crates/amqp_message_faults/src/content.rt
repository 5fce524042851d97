//! What a section is to hold (OASIS AMQP 1.0, part 3, section 3.2).
ghost use Rattle.std.specs.Prelude.{◌≡◌, is_some, IfOk};
ghost use Rattle.amqp_data.specs.View.{view};
ghost use Rattle.amqp_message_faults.specs.Order.{is_content};

use amqp_data::{Binary, Value, ValueList};
use amqp_fields::{AnnotationMap, BaseError, TextMap};
use amqp_messages::SectionKind;
use amqp_messages::content::Content;
use amqp_sections::header::Header;
use amqp_sections::properties::Properties;
use std::alloc::{AllocError, Global};

fn discard<T: Drop>(_content: T) {}

/// Whether the value is what that type reads of a section.
fn reads<T: Content + Drop>(alloc: Global, content: Value) -> Result<bool, AllocError>
    ensures { IfOk result (λ b. b ≡ is_some (T.reads (view content))) }
{
    match T::from_section(alloc, content) {
        Ok(found) => {
            discard(found);
            Ok(true)
        }
        Err(BaseError::Memory(error)) => Err(error),
        Err(BaseError::Decode) => Ok(false),
        Err(BaseError::Size) => unreachable!(),
    }
}

/// Whether the value is what a section of that kind is to hold.
pub fn is_content(alloc: Global, kind: SectionKind, content: Value) -> Result<bool, AllocError>
    ensures { IfOk result (λ b. b ≡ is_content kind (view content)) }
{
    match kind {
        SectionKind::Header => reads::<Header>(alloc, content),
        SectionKind::DeliveryAnnotations => reads::<AnnotationMap>(alloc, content),
        SectionKind::MessageAnnotations => reads::<AnnotationMap>(alloc, content),
        SectionKind::Properties => reads::<Properties>(alloc, content),
        SectionKind::ApplicationProperties => reads::<TextMap>(alloc, content),
        SectionKind::Data => reads::<Binary>(alloc, content),
        SectionKind::Sequence => reads::<ValueList>(alloc, content),
        SectionKind::Value => {
            discard(content);
            Ok(true)
        }
        SectionKind::Footer => reads::<AnnotationMap>(alloc, content),
    }
}
