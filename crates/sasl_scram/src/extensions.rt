//! Attributes and extensions of a SCRAM text (RFC 5802, sections 5.1 and 7).

ghost use Rattle.std.specs.Prelude.{◌≡◌, ◌↔◌, ℕ, List, ◌∷◌, ◌++◌, IsTrue, IfSome, IfNone};
ghost use Rattle.sasl_scram.specs.Texts.{IsExtensions};
ghost use Rattle.sasl_scram.specs.Parts.{IsAttribute, IsNext, IsPair, IsExtension};

/// The value of an attribute, and the text after it.
#[derive(Clone, Copy)]
pub struct Attribute<'a> {
    pub value: &'a [u8],
    pub rest: &'a [u8],
}

/// Reads the attribute with this letter at the front of the text.
pub fn read_attribute(text: &[u8], letter: u8) -> Option<Attribute<'_>>
    ensures found { IfSome result (λ a. IsAttribute letter text.now a.value.now a.rest.now) }
    ensures missing { IfNone result ((v : List ℕ) (r : List ℕ) → ¬ IsAttribute letter text.now v r) }
{
    match text {
        [first, b'=', tail @ ..] if *first == letter => {
            let end = tail.iter().position(|b| *b == b',').unwrap_or(tail.len());
            Some(Attribute {
                value: &tail[..end],
                rest: &tail[end..],
            })
        }
        _ => None,
    }
}

/// Reads a comma, and the attribute with this letter after it.
pub fn read_next(text: &[u8], letter: u8) -> Option<Attribute<'_>>
    ensures found { IfSome result (λ a. IsNext letter text.now a.value.now a.rest.now) }
    ensures missing { IfNone result ((v : List ℕ) (r : List ℕ) → ¬ IsNext letter text.now v r) }
{
    match text {
        [b',', after @ ..] => read_attribute(after, letter),
        _ => None,
    }
}

/// The values of two attributes, and the text after them.
#[derive(Clone, Copy)]
pub struct Pair<'a> {
    pub value: &'a [u8],
    pub other: &'a [u8],
    pub rest: &'a [u8],
}

/// Reads two attributes with these letters at the front of the text, with a comma between them.
pub fn read_pair(text: &[u8], first: u8, second: u8) -> Option<Pair<'_>>
    ensures found { IfSome result (λ p. IsPair first second text.now p.value.now p.other.now p.rest.now) }
    ensures missing { IfNone result ((v : List ℕ) (w : List ℕ) (r : List ℕ) → ¬ IsPair first second text.now v w r) }
{
    let Some(front) = read_attribute(text, first) else {
        return None;
    };
    match read_next(front.rest, second) {
        Some(next) => Some(Pair {
            value: front.value,
            other: next.value,
            rest: next.rest,
        }),
        None => None,
    }
}

// Reads one extension; gives the text after it.
fn read_extension(text: &[u8]) -> Option<&[u8]>
    ensures found { IfSome result (λ rest. IsExtension text.now rest.now) }
    ensures missing { IfNone result ((rest : List ℕ) → ¬ IsExtension text.now rest) }
{
    let [b',', letter, ..] = text else {
        return None;
    };
    if !letter.is_ascii_alphabetic() || *letter == b'm' {
        return None;
    }
    match read_next(text, *letter) {
        Some(extension) if !extension.value.is_empty() => Some(extension.rest),
        _ => None,
    }
}

/// Whether the text is nothing but extensions.
pub fn are_extensions(text: &[u8]) -> bool
    ensures { IsTrue result ↔ IsExtensions text.now }
{
    let mut rest = text;
    'extensions: while !rest.is_empty() {
        match read_extension(rest) {
            Some(tail) => rest = tail,
            None => return false,
        }
    }
    true
}
