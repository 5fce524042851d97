use amqp_data::{OrderedMap, Value};
use std::alloc::{AllocError, Global};
use std::test::Fail;

/// The values under the key 7, and then under 5, each put in twice.
fn values_twice(alloc: Global) -> Result<(OrderedMap, [bool; 4]), AllocError> {
    let mut map = OrderedMap::new(alloc);
    let first = map.insert(Value::Uint(7), Value::Ubyte(1))?;
    let second = map.insert(Value::Uint(5), Value::Ubyte(2))?;
    let again = map.insert(Value::Uint(7), Value::Ubyte(3))?;
    let last = map.insert(Value::Uint(5), Value::Ubyte(4))?;
    let were = [
        first.is_none(),
        second.is_none(),
        matches!(again, Some(Value::Ubyte(1))),
        matches!(last, Some(Value::Ubyte(2))),
    ];
    Ok((map, were))
}

#[test]
fn an_insertion_keeps_places_and_answers_what_was_there(rt: HostRuntime) -> Result<(), Fail> {
    let (map, were) = values_twice(rt.alloc())?;
    assert_eq!(rt; were, [true; 4]);
    assert_eq!(rt; map.len(), 2);
    assert!(rt; matches!(map.get(&Value::Uint(7)), Some(Value::Ubyte(3))));
    assert!(rt; matches!(map.get(&Value::Uint(5)), Some(Value::Ubyte(4))));
    assert!(rt; map.get(&Value::Ulong(7)).is_none());
    assert!(rt; matches!(map.entries(), [first, _] if matches!(&first.key, Value::Uint(7))));
    Ok(())
}
