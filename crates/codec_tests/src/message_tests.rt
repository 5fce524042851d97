use amqp_data::{Text, Value, ValueList};
use amqp_fields::BaseError;
use amqp_messages::{Body, FromBody, Message};
use amqp_readback::message::message_read_back;
use std::alloc::{AllocError, Global};
use std::test::Fail;

/// Lists in lists, so many levels deep.
fn nested(alloc: Global, levels: u8) -> Result<Value, AllocError> {
    let mut value = Value::Null;
    for _ in 1..levels {
        let mut list = ValueList::new(alloc);
        list.push(value)?;
        value = Value::List(list);
    }
    Ok(value)
}

/// Whether a value that is nested so deep comes back of a message.
fn comes_back(alloc: Global, levels: u8) -> Result<bool, BaseError> {
    let message = Message::new(Body::Value(nested(alloc, levels)?));
    let again = message_read_back(alloc, &message)?;
    Ok(matches!(again.body, Body::Value(_)))
}

#[test]
fn values_are_counted_by_themselves(rt: HostRuntime) -> Result<(), Fail> {
    assert_eq!(rt; comes_back(rt.alloc(), 32), Ok(true));
    assert_eq!(rt; comes_back(rt.alloc(), 33), Err(BaseError::Size));
    Ok(())
}

#[test]
fn bodies_are_what_they_are(rt: HostRuntime) -> Result<(), Fail> {
    assert!(rt; Text::from_body(Body::Value(Value::Null)).is_err());
    let text = Text::from_str(rt.alloc(), "a")?;
    assert!(rt; Text::from_body(Body::Value(Value::String(text))).is_ok());
    assert!(rt;
        matches!(
            Value::from_body(Body::Value(Value::Uint(1))),
            Ok(Value::Uint(1))
        )
    );
    assert!(rt; matches!(Value::from_body(Body::Empty), Err(Body::Empty)));
    assert!(rt; matches!(Body::from_body(Body::Empty), Ok(Body::Empty)));
    Ok(())
}
