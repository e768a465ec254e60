// An index of the lines of a catalogue text, ordered by their keys.
ghost use Rattle.std.specs.Prelude.{◌≡◌, ◌<◌, ◌≤◌, ◌∷◌, ◌++◌, length, IfOk, IfErr};
ghost use Rattle.std.specs.Cmp.Lexicographic.{slice_cmp};
ghost use Rattle.std.specs.Ordering.{nat_cmp};
ghost use Rattle.rules.specs.Catalogues.{CatalogueFirst};
ghost use Rattle.catalogues.specs.Lines.{InOrder};
ghost use Rattle.catalogues.specs.Ordered.{Indexed, Sought};

use crate::lines::{HEADER, fact, has_header, key_from, line_feeds, line_from};
use rules::Fault;
use std::cmp::Ordering;

const MOST_BYTES: usize = 65_536;

// The most line feeds of a catalogue text.
const MOST_LINES: usize = 4_096;

/// The lines of facts of a catalogue text up to a place, in the order of their keys.
#[derive(Drop)]
pub(crate) struct Index<'a> {
    pub(crate) text: &'a [u8],
    // Where the next line begins.
    at: usize,
    // Where the lines begin.
    pub(crate) places: [u16; MOST_LINES],
    count: usize,
    ghost room: { count ≤ 4096 },
    ghost order: { InOrder text.now at },
    ghost indexed: { Indexed text.now at places count },
}

// Which comes first, a key or that of a name and a code.
fn compare(key: &[u8], name: &[u8], code: &[u8]) -> Ordering
    ensures { result ≡ slice_cmp nat_cmp key.now (name.now ++ 124 ∷ code.now) }
{
    let (front, back) = key.split_at(name.len().min(key.len()));
    let order = front.cmp(name);
    match back {
        [bar, rest @ ..] => order.then(bar.cmp(&b'|')).then(rest.cmp(code)),
        [] => order.then(Ordering::Less),
    }
}

impl<'a> Index<'a> {
    /// The index of a whole text, or its first fault.
    pub(crate) fn new(text: &'a [u8]) -> Result<Index<'a>, Fault>
        ensures ok { IfOk result (λ i. (i.text.now ≡ text.now) × (i.at ≡ length text.now)) }
        ensures err { IfErr result (CatalogueFirst text.now) }
    {
        if text.len() > MOST_BYTES || line_feeds(text) > MOST_LINES || !has_header(text) {
            return Err(Fault::BadCatalogue);
        }
        let mut index = Index {
            text,
            at: HEADER.len(),
            places: [0; MOST_LINES],
            count: 0,
        };
        while index.at < text.len() {
            index.take_line()?;
        }
        Ok(index)
    }

    /// Where the key of a name and a code stands, or where it would stand.
    pub(crate) fn search(&self, name: &[u8], code: &[u8]) -> Result<usize, usize>
        ensures { Sought self.now.text.now self.now.places self.now.count (name.now ++ 124 ∷ code.now) result }
    {
        let places = &self.places[..self.count];
        places.binary_search_by(|place| compare(key_from(self.text, *place as usize), name, code))
    }

    // Where a key stands that lies in one piece, or where it would stand: one comparison at each line.
    fn seek(&self, key: &[u8]) -> Result<usize, usize>
        ensures { Sought self.now.text.now self.now.places self.now.count key.now result }
    {
        let lines = &self.places[..self.count];
        lines.binary_search_by(|line| key_from(self.text, *line as usize).cmp(key))
    }

    // Takes the next line in, where it has no fault.
    fn take_line(&mut self) -> Result<(), Fault>
        requires { self.old.at < length self.old.text.now }
        ensures text { self.new.text.now ≡ self.old.text.now }
        ensures ok { IfOk result (λ _. self.old.at < self.new.at) }
        ensures err { IfErr result (CatalogueFirst self.old.text.now) }
    {
        let at = self.at;
        let bad = Fault::BadCatalogueLine { place: at };
        let line = line_from(self.text, at);
        let end = at + line.len();
        if end == self.text.len() {
            return Err(bad);
        }
        fact(line).ok_or(bad)?;
        let key = key_from(self.text, at);
        let Err(place) = self.seek(key) else {
            return Err(bad);
        };
        self.places.copy_within(place..self.count, place + 1);
        self.places[place] = at as u16;
        self.count += 1;
        self.at = end + 1;
        Ok(())
    }
}
