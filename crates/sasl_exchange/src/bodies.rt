//! What the ends of all mechanisms have in common: names in SASL bodies, and copies (OASIS AMQP 1.0, part 5, section 5.3.3).
ghost use Rattle.std.specs.Prelude.{◌≡◌, ◌<◌, ◌↔◌, [], ◌∷◌, All, Contains, IsTrue, IfOk};
ghost use Rattle.sasl_exchange.specs.ScramBodies.{mechanisms_body};

use amqp_sasl_bodies::sasl::SaslMechanisms;
use amqp_sasl_bodies::sasl_body::SaslBody;
use amqp_sasl_bodies::sasl_code::SaslCode;
use amqp_text::symbol::SymbolError;
use amqp_text::{Binary, Symbol, SymbolList, Text};
use std::alloc::{AllocError, Global};

// A mechanism's name as a symbol.
pub(crate) fn symbol_of(alloc: Global, name: &[u8]) -> Result<Symbol, AllocError>
    requires { All (λ b. b < 128) name.now }
    ensures { IfOk result (λ symbol. symbol ≡ name.now) }
{
    match Symbol::from_slice(alloc, name) {
        Ok(symbol) => Ok(symbol),
        Err(SymbolError::Memory(error)) => Err(error),
        Err(SymbolError::NotAscii) => unreachable!(),
    }
}

// Whether this is a mechanism's name.
pub(crate) fn is_named(name: &[u8], symbol: &Symbol) -> bool
    ensures { IsTrue result ↔ (symbol.now ≡ name.now) }
{
    symbol.as_slice() == name
}

// Whether one of these is a mechanism's name.
pub(crate) fn lists(name: &[u8], names: &[Symbol]) -> bool
    ensures { IsTrue result ↔ Contains names.now name.now }
{
    names.iter().any(|symbol| is_named(name, symbol))
}

// The list of a listener with one mechanism.
pub(crate) fn list_of(alloc: Global, name: &[u8]) -> Result<SaslBody, AllocError>
    requires { All (λ b. b < 128) name.now }
    ensures { IfOk result (λ body. body ≡ mechanisms_body (name.now ∷ [])) }
{
    let name = symbol_of(alloc, name)?;
    let mut names = SymbolList::new(alloc);
    names.push(name)?;
    Ok(SaslBody::Mechanisms(SaslMechanisms {
        sasl_server_mechanisms: names,
    }))
}

pub(crate) fn clone_hostname(
    alloc: Global,
    hostname: &Option<Text>,
) -> Result<Option<Text>, AllocError>
    ensures { IfOk result (λ copy. copy ≡ hostname.now) }
{
    match hostname {
        Some(hostname) => {
            let hostname = hostname.try_clone(alloc)?;
            Ok(Some(hostname))
        }
        None => Ok(None),
    }
}

pub(crate) fn clone_data(
    alloc: Global,
    payload: &Option<Binary>,
) -> Result<Option<Binary>, AllocError>
    ensures { IfOk result (λ copy. copy ≡ payload.now) }
{
    match payload {
        Some(data) => {
            let data = data.try_clone(alloc)?;
            Ok(Some(data))
        }
        None => Ok(None),
    }
}

pub(crate) fn is_ok(code: SaslCode) -> bool
    ensures { IsTrue result ↔ (code ≡ SaslCode.Ok) }
{
    matches!(code, SaslCode::Ok)
}
