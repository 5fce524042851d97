//! The sections of a message, read one after another (OASIS AMQP 1.0, part 3, section 3.2).
ghost use Rattle.std.specs.Prelude.{◌≡◌, Some, option_map};
ghost use Rattle.amqp_data.specs.View.{view};
ghost use Rattle.amqp_fields.specs.Fields.{Gives, ends};
ghost use Rattle.amqp_messages.specs.Message.{said};
ghost use Rattle.amqp_messages.specs.Sections.{left, Takes, taken, is_next, section, sections, one_or_nothing, sequences_in, body_in};

use crate::content::Content;
use crate::kind::SectionKind;
use crate::message::{Body, OneOrMore};
use amqp_data::{Value, ValueList};
use amqp_fields::BaseError;
use std::alloc::Global;
use std::mem;
use std::vec::IntoIter;

/// The sections that are still to be read, the next one apart.
#[derive(Drop)]
pub(crate) struct Sections {
    next: Option<Value>,
    others: IntoIter<Value>,
}

impl Sections {
    /// The sections of a list.
    pub(crate) fn new(list: ValueList) -> Self
        ensures { left result ≡ list }
    {
        let mut others = list.into_vec().into_iter();
        let next = others.next();
        Sections { next, others }
    }

    /// Whether the next section is of that kind.
    fn is_next(&self, kind: SectionKind) -> bool
        ensures { result ≡ is_next kind (left self.now) }
    {
        match &self.next {
            Some(Value::Described(section)) => kind.is_descriptor(section.descriptor()),
            _ => false,
        }
    }

    /// What the next section holds, where it is of that kind.
    pub(crate) fn take(&mut self, kind: SectionKind) -> Option<Value>
        ensures value { option_map view result ≡ (taken kind (left self.old)).0 }
        ensures rest { left self.new ≡ (taken kind (left self.old)).1 }
    {
        if !self.is_next(kind) {
            return None;
        }
        let others = self.others.next();
        match mem::replace(&mut self.next, others) {
            Some(Value::Described(section)) => {
                let (_, content) = section.into_parts();
                Some(content)
            }
            _ => None,
        }
    }

    /// The next section, where it is of that kind.
    pub(crate) fn optional<T: Content + Drop>(
        &mut self,
        alloc: Global,
        kind: SectionKind,
    ) -> Result<Option<T>, BaseError>
        ensures { Takes (λ x. x) result (left self.new) (section kind T.reads (left self.old)) }
    {
        match self.take(kind) {
            None => Ok(None),
            Some(content) => Ok(Some(T::from_section(alloc, content)?)),
        }
    }

    /// All sections of that kind that come next.
    pub(crate) fn all<T: Content + Drop>(
        &mut self,
        alloc: Global,
        kind: SectionKind,
    ) -> Result<Vec<T>, BaseError>
        ensures { Takes (λ x. x.items) result (left self.new) (sections kind T.reads (left self.old)) }
    {
        let mut found = Vec::new(alloc);
        while let Some(content) = self.take(kind) {
            found.push(T::from_section(alloc, content)?)?;
        }
        Ok(found)
    }

    fn value_or_nothing(&mut self) -> Body
        ensures { Some (said result, left self.new) ≡ one_or_nothing (left self.old) }
    {
        match self.take(SectionKind::Value) {
            Some(value) => Body::Value(value),
            None => Body::Empty,
        }
    }

    fn sequences_or_value(&mut self, alloc: Global) -> Result<Body, BaseError>
        ensures { Takes said result (left self.new) (sequences_in (left self.old)) }
    {
        match self.optional(alloc, SectionKind::Sequence)? {
            Some(first) => {
                let rest = self.all(alloc, SectionKind::Sequence)?;
                Ok(Body::Sequence(OneOrMore { first, rest }))
            }
            None => Ok(self.value_or_nothing()),
        }
    }

    /// The sections of the body.
    #[tactic(auto, unfolding(crate::specs::Sections::body_in))]
    pub(crate) fn body(&mut self, alloc: Global) -> Result<Body, BaseError>
        ensures { Takes said result (left self.new) (body_in (left self.old)) }
    {
        match self.optional(alloc, SectionKind::Data)? {
            Some(first) => {
                let rest = self.all(alloc, SectionKind::Data)?;
                Ok(Body::Data(OneOrMore { first, rest }))
            }
            None => self.sequences_or_value(alloc),
        }
    }

    /// That no section is left.
    pub(crate) fn end(self) -> Result<(), BaseError>
        ensures { Gives result (ends (left self)) }
    {
        match self.next {
            None => Ok(()),
            Some(_) => Err(BaseError::Decode),
        }
    }
}
