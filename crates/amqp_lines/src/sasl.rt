//! The bodies of SASL frames (OASIS AMQP 1.0, part 5, section 5.3.3).
ghost use Rattle.std.specs.Prelude.{◌≡◌, ◌++◌, ◌∷◌, [], OnOk, Option, codes, true, false};
ghost use Rattle.amqp_shown.specs.Bytes.{escaped, quoted};
ghost use Rattle.amqp_lines.specs.Hidden.{init_text, response_text};
ghost use Rattle.amqp_lines.specs.Bodies.{code_text, said_text, init_said, escaped_said, mechanism_text, challenge_text, answer_text, end_text, sasl_text};

use crate::bodies::push_list;
use crate::hidden::{push_init, push_response};
use amqp_composites::kind::CompositeKind;
use amqp_sasl_bodies::{SaslBody, SaslCode, SaslInit, SaslOutcome};
use amqp_shown::bytes::{push_escaped, push_quoted, push_word};
use amqp_text::{Binary, Text};
use std::alloc::{AllocError, Global};

fn code_name(code: SaslCode) -> &'static str
    ensures { result.now ≡ code_text code }
{
    match code {
        SaslCode::Ok => "ok",
        SaslCode::Auth => "auth",
        SaslCode::Sys => "sys",
        SaslCode::SysPerm => "sys-perm",
        SaslCode::SysTemp => "sys-temp",
    }
}

fn push_hostname(out: &mut Vec<u8>, hostname: &Option<Text>) -> Result<(), AllocError>
    ensures { let said = said_text (codes "hostname") (escaped_said true hostname.now) in
        OnOk result (out.new.items ≡ out.old.items ++ said) }
{
    let Some(hostname) = hostname else {
        return Ok(());
    };
    push_word(out, " hostname=")?;
    push_quoted(out, true, hostname.as_bytes())
}

fn push_additional(out: &mut Vec<u8>, additional: &Option<Binary>) -> Result<(), AllocError>
    ensures { let said = said_text (codes "additional-data") (escaped_said false additional.now) in
        OnOk result (out.new.items ≡ out.old.items ++ said) }
{
    let Some(additional) = additional else {
        return Ok(());
    };
    push_word(out, " additional-data=")?;
    push_quoted(out, false, additional.as_slice())
}

/// Adds a name and the first message of a client between quotation marks, or `***` between them.
fn push_first(
    out: &mut Vec<u8>,
    name: &str,
    mechanism: &[u8],
    response: &[u8],
) -> Result<(), AllocError>
    ensures { let said = name.now ++ (34 ∷ (init_text mechanism.now response.now ++ 34 ∷ [])) in
        OnOk result (out.new.items ≡ out.old.items ++ said) }
{
    push_word(out, name)?;
    out.push(b'"')?;
    push_init(out, mechanism, response)?;
    out.push(b'"')?;
    Ok(())
}

fn push_initial(
    out: &mut Vec<u8>,
    mechanism: &[u8],
    response: &Option<Binary>,
) -> Result<(), AllocError>
    ensures { let said = said_text (codes "initial-response") (init_said mechanism.now response.now) in
        OnOk result (out.new.items ≡ out.old.items ++ said) }
{
    let Some(response) = response else {
        return Ok(());
    };
    push_first(out, " initial-response=", mechanism, response.as_slice())
}

/// Adds a name and what is said by it, between quotation marks.
fn push_named(out: &mut Vec<u8>, name: &str, text: &[u8]) -> Result<(), AllocError>
    ensures { OnOk result (out.new.items ≡ out.old.items ++ (name.now ++ quoted false text.now)) }
{
    push_word(out, name)?;
    push_quoted(out, false, text)
}

#[tactic(auto, unfolding(crate::specs::Bodies::challenge_text))]
fn push_challenge(out: &mut Vec<u8>, challenge: &[u8]) -> Result<(), AllocError>
    ensures { OnOk result (out.new.items ≡ out.old.items ++ challenge_text challenge.now) }
{
    push_named(out, "sasl-challenge challenge=", challenge)
}

/// Adds a name and a response between quotation marks, without its proof.
fn push_hidden(out: &mut Vec<u8>, name: &str, response: &[u8]) -> Result<(), AllocError>
    ensures { let said = name.now ++ (34 ∷ (response_text response.now ++ 34 ∷ [])) in
        OnOk result (out.new.items ≡ out.old.items ++ said) }
{
    push_word(out, name)?;
    out.push(b'"')?;
    push_response(out, response)?;
    out.push(b'"')?;
    Ok(())
}

#[tactic(auto, unfolding(crate::specs::Bodies::answer_text))]
fn push_answer(out: &mut Vec<u8>, response: &[u8]) -> Result<(), AllocError>
    ensures { OnOk result (out.new.items ≡ out.old.items ++ answer_text response.now) }
{
    push_hidden(out, "sasl-response response=", response)
}

/// Adds a name and what is said by it.
fn push_said(out: &mut Vec<u8>, name: &str, text: &[u8]) -> Result<(), AllocError>
    ensures { OnOk result (out.new.items ≡ out.old.items ++ (name.now ++ escaped false text.now)) }
{
    push_word(out, name)?;
    push_escaped(out, false, text)
}

#[tactic(auto, unfolding(crate::specs::Bodies::mechanism_text))]
fn push_mechanism(out: &mut Vec<u8>, mechanism: &[u8]) -> Result<(), AllocError>
    ensures { OnOk result (out.new.items ≡ out.old.items ++ mechanism_text mechanism.now) }
{
    push_said(out, "sasl-init mechanism=:", mechanism)
}

fn push_sasl_init(out: &mut Vec<u8>, body: &SaslInit) -> Result<(), AllocError>
    ensures { OnOk result (out.new.items ≡ out.old.items ++ sasl_text (SaslBody.Init body.now)) }
{
    push_mechanism(out, body.mechanism.as_slice())?;
    push_initial(out, body.mechanism.as_slice(), &body.initial_response)?;
    push_hostname(out, &body.hostname)
}

/// Adds a name and how a negotiation ends.
fn push_code(out: &mut Vec<u8>, name: &str, code: SaslCode) -> Result<(), AllocError>
    ensures { OnOk result (out.new.items ≡ out.old.items ++ (name.now ++ code_text code)) }
{
    push_word(out, name)?;
    push_word(out, code_name(code))
}

#[tactic(auto, unfolding(crate::specs::Bodies::end_text))]
fn push_end(out: &mut Vec<u8>, code: SaslCode) -> Result<(), AllocError>
    ensures { OnOk result (out.new.items ≡ out.old.items ++ end_text code) }
{
    push_code(out, "sasl-outcome code=", code)
}

fn push_outcome(out: &mut Vec<u8>, body: &SaslOutcome) -> Result<(), AllocError>
    ensures { OnOk result (out.new.items ≡ out.old.items ++ sasl_text (SaslBody.Outcome body.now)) }
{
    push_end(out, body.code)?;
    push_additional(out, &body.additional_data)
}

/// Adds what a SASL frame says; the one error is want of memory, which may leave a part of the text.
pub fn push_sasl(alloc: Global, out: &mut Vec<u8>, body: &SaslBody) -> Result<(), AllocError>
    ensures { OnOk result (out.new.items ≡ out.old.items ++ sasl_text body.now) }
{
    match body {
        SaslBody::Mechanisms(_) => {
            push_list(
                alloc,
                out,
                CompositeKind::SaslMechanisms,
                body.to_list(alloc),
            )
        }
        SaslBody::Init(body) => push_sasl_init(out, body),
        SaslBody::Challenge(body) => push_challenge(out, body.challenge.as_slice()),
        SaslBody::Response(body) => push_answer(out, body.response.as_slice()),
        SaslBody::Outcome(body) => push_outcome(out, body),
    }
}
