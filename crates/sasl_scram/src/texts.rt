//! The texts of SCRAM (RFC 5802, sections 5 and 7), read and written.

ghost use Rattle.std.specs.Prelude.{◌≡◌, ◌↔◌, ◌≤◌, ℕ, List, ◌∷◌, ◌++◌, length, IsTrue, IfSome, IfNone, IfOk};
ghost use Rattle.sasl_scram.specs.Parts.{IsClientFirstBare, IsClientFinalBare};
ghost use Rattle.sasl_scram.specs.Texts.{client_first_of, client_first_bare_of, server_first_of, client_final_of, client_final_bare_of, server_final_of, auth_of, Extends, IsHeader, IsValue, IsClientFirst, IsServerFirst, IsClientFinal, IsServerFinal};

use crate::encoding::{append_encoded, is_encoded};
use crate::escape::append_escaped;
use crate::extensions::{are_extensions, read_attribute, read_next, read_pair};
use crate::profile::is_nonce;
use amqp_text::Binary;
use itoa::Buffer;
use std::alloc::{AllocError, Global};

/// The front of a client first: no channel binding, no authorization identity (section 7, `gs2-header`).
pub const GS2_HEADER: &str = "n,,";

/// Before the user in a client first.
pub const USERNAME_KEY: &str = "n=";

/// Before what a reader must know, which nothing is: a text with it is `Malformed`.
pub const RESERVED_MEXT: &str = "m=";

/// Before a nonce.
pub const NONCE_KEY: &str = "r=";

/// Before the base64 of the front of the client first, in a client final.
pub const CHANNEL_BINDING_KEY: &str = "c=";

/// Before the base64 of the salt, in a server first.
pub const SALT_KEY: &str = "s=";

/// Before the iteration count, in a server first.
pub const ITERATION_COUNT_KEY: &str = "i=";

/// Before the base64 of the proof, in a client final.
pub const PROOF_KEY: &str = "p=";

/// Before the base64 of the signature, in a server final.
pub const VERIFIER_KEY: &str = "v=";

// The base64 of `GS2_HEADER`.
const GS2_HEADER_ENCODED: &[u8] = b"biws";

/// The parts of a client first, with the user's name as it is written.
#[derive(Clone, Copy)]
pub struct ClientFirst<'a> {
    pub header: &'a [u8],
    pub bare: &'a [u8],
    pub name: &'a [u8],
    pub nonce: &'a [u8],
}

/// The parts of a server first, with salt and count as they are written.
#[derive(Clone, Copy)]
pub struct ServerFirst<'a> {
    pub nonce: &'a [u8],
    pub salt: &'a [u8],
    pub count: &'a [u8],
}

/// The parts of a client final, with the proof as it is written; `bare` is all before it.
#[derive(Clone, Copy)]
pub struct ClientFinal<'a> {
    pub bare: &'a [u8],
    pub nonce: &'a [u8],
    pub proof: &'a [u8],
}

// Reads a client first without its header; gives name and nonce.
fn read_client_first_bare(bare: &[u8]) -> Option<(&[u8], &[u8])>
    ensures found { IfSome result (λ f. IsClientFirstBare bare.now f.0.now f.1.now) }
    ensures missing { IfNone result ((n : List ℕ) (r : List ℕ) → ¬ IsClientFirstBare bare.now n r) }
{
    match read_pair(bare, b'n', b'r') {
        Some(pair) if is_nonce(pair.other) && are_extensions(pair.rest) => Some((
            pair.value, pair.other,
        )),
        _ => None,
    }
}

/// Reads a client first.
pub fn read_client_first(text: &[u8]) -> Option<ClientFirst<'_>>
    ensures found { IfSome result (λ f. IsClientFirst text.now f.header.now f.bare.now f.name.now f.nonce.now) }
    ensures missing { IfNone result ((h : List ℕ) (b : List ℕ) (n : List ℕ) (r : List ℕ) → ¬ IsClientFirst text.now h b n r) }
{
    let [b'n' | b'y', b',', b',', ..] = text else {
        return None;
    };
    let (header, bare) = text.split_at(3);
    match read_client_first_bare(bare) {
        Some((name, nonce)) => Some(ClientFirst {
            header,
            bare,
            name,
            nonce,
        }),
        None => None,
    }
}

/// Reads a server first.
pub fn read_server_first(text: &[u8]) -> Option<ServerFirst<'_>>
    ensures found { IfSome result (λ f. IsServerFirst text.now f.nonce.now f.salt.now f.count.now) }
    ensures missing { IfNone result ((n : List ℕ) (s : List ℕ) (c : List ℕ) → ¬ IsServerFirst text.now n s c) }
{
    let Some(front) = read_pair(text, b'r', b's') else {
        return None;
    };
    match read_next(front.rest, b'i') {
        Some(count) if is_nonce(front.value) && are_extensions(count.rest) => Some(ServerFirst {
            nonce: front.value,
            salt: front.other,
            count: count.value,
        }),
        _ => None,
    }
}

// Reads a client final without its proof, to a client first with this header; gives the nonce.
fn read_client_final_bare<'a>(header: &[u8], bare: &'a [u8]) -> Option<&'a [u8]>
    requires { length header.now ≤ 3 }
    ensures found { IfSome result (λ r. IsClientFinalBare header.now bare.now r.now) }
    ensures missing { IfNone result ((r : List ℕ) → ¬ IsClientFinalBare header.now bare.now r) }
{
    match read_pair(bare, b'c', b'r') {
        Some(pair)
            if is_encoded(pair.value, header)
                && is_nonce(pair.other)
                && are_extensions(pair.rest) => Some(pair.other),
        _ => None,
    }
}

// What stands before the last comma of a text, and what stands after it.
fn split_last(text: &[u8]) -> Option<(&[u8], &[u8])>
    ensures found { IfSome result (λ r. (text.now ≡ r.0.now ++ (44 ∷ r.1.now)) × IsValue r.1.now) }
    ensures missing { IfNone result ((front : List ℕ) (last : List ℕ) → ¬ (text.now ≡ front ++ (44 ∷ last))) }
{
    let mut at = text.len();
    'bytes: while at > 0 {
        at -= 1;
        if text[at] == b',' {
            return Some((&text[..at], &text[at + 1..]));
        }
    }
    None
}

/// Reads a client final to a client first with this header.
pub fn read_client_final<'a>(header: &[u8], text: &'a [u8]) -> Option<ClientFinal<'a>>
    requires { IsHeader header.now }
    ensures found { IfSome result (λ f. IsClientFinal header.now text.now f.bare.now f.nonce.now f.proof.now) }
    ensures missing { IfNone result ((b : List ℕ) (r : List ℕ) (p : List ℕ) → ¬ IsClientFinal header.now text.now b r p) }
{
    let Some((bare, last)) = split_last(text) else {
        return None;
    };
    let Some(proof) = read_attribute(last, b'p') else {
        return None;
    };
    match read_client_final_bare(header, bare) {
        Some(nonce) => Some(ClientFinal {
            bare,
            nonce,
            proof: proof.value,
        }),
        None => None,
    }
}

/// Reads a server final; gives the signature as it is written.
pub fn read_server_final(text: &[u8]) -> Option<&[u8]>
    ensures found { IfSome result (λ s. IsServerFinal text.now s.now) }
    ensures missing { IfNone result ((s : List ℕ) → ¬ IsServerFinal text.now s) }
{
    match read_attribute(text, b'v') {
        Some(signature) if are_extensions(signature.rest) => Some(signature.value),
        _ => None,
    }
}

/// Whether the nonce read begins with the own one and is longer.
pub fn extends(own: &[u8], nonce: &[u8]) -> bool
    ensures { IsTrue result ↔ Extends own.now nonce.now }
{
    own.len() < nonce.len() && &nonce[..own.len()] == own
}

/// The client first without its header: `n=USER,r=NONCE`.
pub fn client_first_bare(alloc: Global, user: &[u8], nonce: &[u8]) -> Result<Binary, AllocError>
    ensures { IfOk result (λ t. t ≡ client_first_bare_of user.now nonce.now) }
{
    let mut text = Binary::from_slice(alloc, USERNAME_KEY.as_bytes())?;
    append_escaped(&mut text, user)?;
    text.append(b",")?;
    text.append(NONCE_KEY.as_bytes())?;
    text.append(nonce)?;
    Ok(text)
}

/// The client first: `n,,n=USER,r=NONCE`.
pub fn client_first(alloc: Global, user: &[u8], nonce: &[u8]) -> Result<Binary, AllocError>
    ensures { IfOk result (λ t. t ≡ client_first_of user.now nonce.now) }
{
    let bare = client_first_bare(alloc, user, nonce)?;
    let mut text = Binary::from_slice(alloc, GS2_HEADER.as_bytes())?;
    text.append(bare.as_slice())?;
    Ok(text)
}

/// The server first: `r=NONCE,s=SALT,i=COUNT`.
pub fn server_first(
    alloc: Global,
    nonce: &[u8],
    salt: &[u8],
    count: u32,
) -> Result<Binary, AllocError>
    ensures { IfOk result (λ t. t ≡ server_first_of nonce.now salt.now count) }
{
    let mut digits = Buffer::new();
    let mut text = Binary::from_slice(alloc, NONCE_KEY.as_bytes())?;
    text.append(nonce)?;
    text.append(b",")?;
    text.append(SALT_KEY.as_bytes())?;
    append_encoded(alloc, &mut text, salt)?;
    text.append(b",")?;
    text.append(ITERATION_COUNT_KEY.as_bytes())?;
    text.append(digits.format(count).as_bytes())?;
    Ok(text)
}

/// The client final without its proof: `c=biws,r=NONCE`.
pub fn client_final_bare(alloc: Global, nonce: &[u8]) -> Result<Binary, AllocError>
    ensures { IfOk result (λ t. t ≡ client_final_bare_of nonce.now) }
{
    let mut text = Binary::from_slice(alloc, CHANNEL_BINDING_KEY.as_bytes())?;
    text.append(GS2_HEADER_ENCODED)?;
    text.append(b",")?;
    text.append(NONCE_KEY.as_bytes())?;
    text.append(nonce)?;
    Ok(text)
}

/// The client final: `c=biws,r=NONCE,p=PROOF`.
pub fn client_final(alloc: Global, nonce: &[u8], proof: &[u8]) -> Result<Binary, AllocError>
    ensures { IfOk result (λ t. t ≡ client_final_of nonce.now proof.now) }
{
    let mut text = client_final_bare(alloc, nonce)?;
    text.append(b",")?;
    text.append(PROOF_KEY.as_bytes())?;
    append_encoded(alloc, &mut text, proof)?;
    Ok(text)
}

/// The server final: `v=SIGNATURE`.
pub fn server_final(alloc: Global, signature: &[u8]) -> Result<Binary, AllocError>
    ensures { IfOk result (λ t. t ≡ server_final_of signature.now) }
{
    let mut text = Binary::from_slice(alloc, VERIFIER_KEY.as_bytes())?;
    append_encoded(alloc, &mut text, signature)?;
    Ok(text)
}

/// What both ends sign (section 3, `AuthMessage`).
pub fn auth_message(
    alloc: Global,
    client_first_bare: &[u8],
    server_first: &[u8],
    client_final_bare: &[u8],
) -> Result<Binary, AllocError>
    ensures { IfOk result (λ t. t ≡ auth_of client_first_bare.now server_first.now client_final_bare.now) }
{
    let mut text = Binary::from_slice(alloc, client_first_bare)?;
    text.append(b",")?;
    text.append(server_first)?;
    text.append(b",")?;
    text.append(client_final_bare)?;
    Ok(text)
}
