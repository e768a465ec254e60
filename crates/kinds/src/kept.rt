// The kept form of a value, a byte at a time, with no buffer.
ghost use Rattle.std.specs.Prelude.{◌≡◌, ◌+◌, ◌<◌, ◌≤◌, length, drop, [], ◌∷◌, MatchOption};
ghost use Rattle.rules.specs.Kept.{resolved, kept as kept_form};
ghost use Rattle.kinds.specs.Reading.{letter_of, rest, Gives};
ghost use Rattle.std.specs.Iterator.{at_most};

use byte_classes::is_blank;

// The byte that an ampersand before these raw bytes stands for, and how many of them its escape takes.
fn escape(raw: &[u8]) -> (u8, usize)
    ensures value { result ≡ letter_of (38 ∷ raw.now) }
    ensures within { result.1 ≤ length raw.now }
{
    match raw {
        [b'a', b'm', b'p', b';', ..] => (b'&', 4),
        [b'l', b't', b';', ..] => (b'<', 3),
        [b'g', b't', b';', ..] => (b'>', 3),
        [b'q', b'u', b'o', b't', b';', ..] => (b'"', 5),
        [b'a', b'p', b'o', b's', b';', ..] => (b'\'', 5),
        _ => (b'&', 0),
    }
}

// The byte that raw bytes begin with, its escape resolved, and the raw bytes after it.
fn letter(raw: &[u8]) -> Option<(u8, &[u8])>
    ensures { MatchOption result (raw.now ≡ []) (λ l. (0 < length raw.now) × (l.0 ≡ (letter_of raw.now).0) × (l.1.now ≡ drop (1 + (letter_of raw.now).1) raw.now)) }
{
    match raw {
        [b'&', after @ ..] => {
            let (b, more) = escape(after);
            Some((b, &after[more..]))
        }
        [b, after @ ..] => Some((*b, after)),
        [] => None,
    }
}

/// Gives the kept form of a value byte by byte: escapes resolved, every run of blanks one space, none at the ends.
#[derive(Clone, Copy)]
pub struct Kept<'a> {
    raw: &'a [u8],
    begun: bool,
}

impl<'a> Kept<'a> {
    /// Over the raw bytes of a value, as they stand between its quotes.
    pub fn new(raw: &'a [u8]) -> Kept<'a>
        ensures { rest result ≡ kept_form (resolved raw.now) }
    {
        Kept { raw, begun: false }
    }
}

impl Iterator for Kept<'_> {
    type Item = u8;

    ghost next_gives = { Gives };

    ghost remaining = { λ k. at_most (length (rest k)) };

    fn next(&mut self) -> Option<u8> {
        let mut gap = false;
        while let Some((b, after)) = letter(self.raw) {
            if !is_blank(b) {
                if gap && self.begun {
                    return Some(b' ');
                }
                self.begun = true;
                self.raw = after;
                return Some(b);
            }
            self.raw = after;
            gap = true;
        }
        None
    }
}
