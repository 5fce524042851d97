//! The lines of a text.
ghost use Rattle.std.specs.Prelude.{◌≡◌, ◌<◌, ◌==◌, [], ◌∷◌, length, option_map, position, MatchOption, IfSome};
ghost use Rattle.amqp_show.specs.Lines.{lines_of, behind as what_follows, HasNone, BeginsWith};

/// Where a byte stands first.
pub fn place_of(text: &[u8], byte: u8) -> Option<usize>
    ensures { result ≡ position (λ b. b == byte) text.now }
{
    text.iter().position(|b| *b == byte)
}

/// The first line, without its line feed, and what follows it.
pub fn next_line(text: &[u8]) -> Option<(&[u8], &[u8])>
    ensures lines { MatchOption result (lines_of text.now ≡ []) (λ p. lines_of text.now ≡ p.0.now ∷ lines_of p.1.now) }
    ensures shorter { IfSome result (λ p. length p.1.now < length text.now) }
{
    match place_of(text, b'\n') {
        Some(place) => Some((&text[..place], &text[place + 1..])),
        None => None,
    }
}

/// What follows a front in a text that begins with it.
pub fn behind<'a>(front: &[u8], text: &'a [u8]) -> Option<&'a [u8]>
    ensures { option_map (λ rest. rest.now) result ≡ what_follows front.now text.now }
{
    if text.len() >= front.len() && &text[..front.len()] == front {
        Some(&text[front.len()..])
    } else {
        None
    }
}

/// The lines of a text that are still to be read; the first is known, so that it is found once.
#[derive(Clone, Copy, Debug)]
pub struct Lines<'a> {
    first: Option<(&'a [u8], &'a [u8])>,
}

impl<'a> Lines<'a> {
    ghost use Rattle.amqp_show.specs.Left.{lines_left};

    /// All lines of a text.
    pub fn new(text: &'a [u8]) -> Self
        ensures { lines_left result ≡ lines_of text.now }
    {
        Lines {
            first: next_line(text),
        }
    }

    /// What follows a front in the first line, where that begins with it, and the lines behind that one.
    pub fn behind(self, front: &[u8]) -> Option<(&'a [u8], Lines<'a>)>
        ensures first { MatchOption result (HasNone front.now (lines_left self.entry)) (λ p. BeginsWith front.now (lines_left self.entry) p.0.now (lines_left p.1)) }
        ensures shorter { IfSome result (λ p. length (lines_left p.1) < length (lines_left self.entry)) }
    {
        let (line, after) = self.first?;
        let told = behind(front, line)?;
        Some((told, Lines::new(after)))
    }
}
