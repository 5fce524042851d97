//! Values from what they hold: each Rust type gives the kind that holds it.
ghost use Rattle.std.specs.Prelude.{◌≡◌};
ghost use Rattle.amqp_data.specs.declared.value.Value.TheVariants as v;

use crate::value::{Described, OrderedMap, Timestamp, Uuid, Value, ValueArray, ValueList};
use amqp_text::{Binary, Symbol, Text};

impl From<bool> for Value {
    ghost from_gives = { λ x value. value ≡ v.Bool x };

    fn from(value: bool) -> Self {
        Value::Bool(value)
    }
}

impl From<u8> for Value {
    ghost from_gives = { λ x value. value ≡ v.Ubyte x };

    fn from(number: u8) -> Self {
        Value::Ubyte(number)
    }
}

impl From<u16> for Value {
    ghost from_gives = { λ x value. value ≡ v.Ushort x };

    fn from(number: u16) -> Self {
        Value::Ushort(number)
    }
}

impl From<u32> for Value {
    ghost from_gives = { λ x value. value ≡ v.Uint x };

    fn from(number: u32) -> Self {
        Value::Uint(number)
    }
}

impl From<u64> for Value {
    ghost from_gives = { λ x value. value ≡ v.Ulong x };

    fn from(number: u64) -> Self {
        Value::Ulong(number)
    }
}

impl From<i8> for Value {
    ghost from_gives = { λ x value. value ≡ v.Byte x };

    fn from(number: i8) -> Self {
        Value::Byte(number)
    }
}

impl From<i16> for Value {
    ghost from_gives = { λ x value. value ≡ v.Short x };

    fn from(number: i16) -> Self {
        Value::Short(number)
    }
}

impl From<i32> for Value {
    ghost from_gives = { λ x value. value ≡ v.Int x };

    fn from(number: i32) -> Self {
        Value::Int(number)
    }
}

impl From<i64> for Value {
    ghost from_gives = { λ x value. value ≡ v.Long x };

    fn from(number: i64) -> Self {
        Value::Long(number)
    }
}

impl From<char> for Value {
    ghost from_gives = { λ x value. value ≡ v.Char x };

    fn from(character: char) -> Self {
        Value::Char(character)
    }
}

impl From<Timestamp> for Value {
    ghost from_gives = { λ x value. value ≡ v.Timestamp x };

    fn from(timestamp: Timestamp) -> Self {
        Value::Timestamp(timestamp)
    }
}

impl From<Uuid> for Value {
    ghost from_gives = { λ x value. value ≡ v.Uuid x };

    fn from(uuid: Uuid) -> Self {
        Value::Uuid(uuid)
    }
}

impl From<Binary> for Value {
    ghost from_gives = { λ x value. value ≡ v.Binary x };

    fn from(bytes: Binary) -> Self {
        Value::Binary(bytes)
    }
}

impl From<Text> for Value {
    ghost from_gives = { λ x value. value ≡ v.String x };

    fn from(text: Text) -> Self {
        Value::String(text)
    }
}

impl From<Symbol> for Value {
    ghost from_gives = { λ x value. value ≡ v.Symbol x };

    fn from(symbol: Symbol) -> Self {
        Value::Symbol(symbol)
    }
}

impl From<ValueList> for Value {
    ghost from_gives = { λ x value. value ≡ v.List x };

    fn from(list: ValueList) -> Self {
        Value::List(list)
    }
}

impl From<OrderedMap> for Value {
    ghost from_gives = { λ x value. value ≡ v.Map x };

    fn from(map: OrderedMap) -> Self {
        Value::Map(map)
    }
}

impl From<ValueArray> for Value {
    ghost from_gives = { λ x value. value ≡ v.Array x };

    fn from(array: ValueArray) -> Self {
        Value::Array(array)
    }
}

impl From<Described> for Value {
    ghost from_gives = { λ x value. value ≡ v.Described x };

    fn from(described: Described) -> Self {
        Value::Described(described)
    }
}
