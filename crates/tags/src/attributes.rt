// The attributes of a tag, by their places.
ghost use Rattle.std.specs.Prelude.{◌≡◌, ℕ, ◌+◌, ◌≤◌, Bool, true, List, ◌++◌, length, drop, IfSome, Some, None};
ghost use Rattle.std.specs.Iterator.{at_most};
ghost use Rattle.rules.specs.Bytes.{blank, all};
ghost use Rattle.rules.specs.Markup.{Attribute, attribute_ok, attributes_text};
ghost use Rattle.theory.specs.On.{attribute_on, attributes_on, closes};
ghost use Rattle.tags.specs.Spans.{part, spans, Inside};
ghost use Rattle.tags.specs.Attributes.{Gives, left};

use byte_classes::{Blank, NameByte, Other, skip};

/// A part of a document, from one place up to another.
#[derive(Clone, Copy, Debug, PartialEq, Eq)]
pub struct Span {
    pub start: usize,
    pub end: usize,
}

impl Span {
    /// The bytes of the part; of one that passes the end of the document, those that the document has.
    pub fn of<'a>(self, document: &'a [u8]) -> &'a [u8]
        ensures { result.now ≡ part document.now self }
    {
        let end = self.end.min(document.len());
        let start = self.start.min(end);
        &document[start..end]
    }
}

/// An attribute of a tag: where its name stands, and where its raw value stands between the quotes.
#[derive(Clone, Copy, Debug, PartialEq, Eq)]
pub struct AttributeSpan {
    pub name: Span,
    pub value: Span,
}

/// The attribute that begins with the blanks at `at`; none where the tag ends after them, and past the end of the document.
pub fn attribute(document: &[u8], at: usize) -> Option<AttributeSpan>
    ensures within { IfSome result (λ a. Inside at (length document.now) a) }
    ensures reads { (a : Attribute) (rest : List ℕ) → attribute_ok a ≡ true → drop at document.now ≡ attribute_on a rest → result ≡ Some (spans at a) }
    ensures none { (g z : List ℕ) → all blank g ≡ true → closes z ≡ true → drop at document.now ≡ g ++ z → result ≡ None }
{
    let start = skip(Blank, document, at);
    if matches!(document.get(start)?, b'/' | b'>') {
        return None;
    }
    let end = skip(NameByte, document, start);
    let equals = skip(Blank, document, end);
    let opening = skip(Blank, document, equals + 1);
    let quote = *document.get(opening)?;
    let value = opening + 1;
    let closing = skip(Other(quote), document, value);
    if closing >= document.len() {
        return None;
    }
    Some(AttributeSpan {
        name: Span { start, end },
        value: Span {
            start: value,
            end: closing,
        },
    })
}

/// The attributes of a tag, in their order.
#[derive(Clone, Copy, Debug)]
pub struct Attributes<'a> {
    document: &'a [u8],
    at: usize,
}

impl<'a> Attributes<'a> {
    /// Those of the tag whose attributes begin at `at`.
    pub fn new(document: &'a [u8], at: usize) -> Attributes<'a>
        ensures same { result.document.now ≡ document.now }
        ensures begins { result.at ≡ at }
    {
        Attributes { document, at }
    }
}

impl Iterator for Attributes<'_> {
    type Item = AttributeSpan;

    ghost next_gives = { Gives };

    ghost remaining = { λ w. at_most (left w) };

    fn next(&mut self) -> Option<AttributeSpan> {
        let next = attribute(self.document, self.at)?;
        self.at = next.value.end + 1;
        Some(next)
    }
}

/// Where the `/` or `>` of the tag stands whose attributes begin at `at`; past the end of the document, `at` itself.
pub fn tag_end(document: &[u8], at: usize) -> usize
    ensures within { (at ≤ result) × (at ≤ length document.now → result ≤ length document.now) }
    ensures past { length document.now ≤ at → result ≡ at }
    ensures reads { (l : List Attribute) (g z : List ℕ) → all attribute_ok l ≡ true → all blank g ≡ true → closes z ≡ true → drop at document.now ≡ attributes_on l (g ++ z) → result ≡ at + length (attributes_text l) + length g }
{
    let mut i = at;
    for a in Attributes::new(document, at) {
        i = a.value.end + 1;
    }
    skip(Blank, document, i)
}
