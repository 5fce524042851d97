//! Types that the body of a message may be.
ghost use Rattle.std.specs.Prelude.{◌≡◌, Result};
ghost use Rattle.amqp_messages.specs.declared.message.Body.{Body};
ghost use Rattle.amqp_messages.specs.FromBody.{the_body, the_value, the_text};

use crate::message::Body;
use amqp_data::{Text, Value};

/// A type that the body of a message may be.
pub trait FromBody: Sized {
    ghost gives: { Body → Result Self Body };

    /// What the body is, or the body itself where it is no such thing.
    fn from_body(body: Body) -> Result<Self, Body>
        ensures { result ≡ gives body };
}

/// Any body.
impl FromBody for Body {
    ghost gives = { the_body };

    fn from_body(body: Body) -> Result<Self, Body> {
        Ok(body)
    }
}

/// A body of one value.
impl FromBody for Value {
    ghost gives = { the_value };

    fn from_body(body: Body) -> Result<Self, Body> {
        match body {
            Body::Value(value) => Ok(value),
            other => Err(other),
        }
    }
}

/// A body of one value, which is a text.
impl FromBody for Text {
    ghost gives = { the_text };

    fn from_body(body: Body) -> Result<Self, Body> {
        match body {
            Body::Value(Value::String(text)) => Ok(text),
            other => Err(other),
        }
    }
}
