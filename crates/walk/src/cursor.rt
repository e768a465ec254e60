// A walk through the nodes of a document.
ghost use Rattle.std.specs.Prelude.{◌≡◌, ◌+◌, ◌<◌, ◌≤◌, true, false, length, drop, IfSome};
ghost use Rattle.std.specs.Iterator.{at_most};
ghost use Rattle.std.specs.List.{prefix_len};
ghost use Rattle.rules.specs.Bytes.{blank};
ghost use Rattle.rules.specs.Markup.{Document, Marks};
ghost use Rattle.walk.specs.Events.{met, OpensEachNode};
ghost use Rattle.walk.specs.Coming.{Comes, InOrder, Meets, left, shuts};

use crate::event::{Event, Opened};
use byte_classes::{Blank, NameByte, skip};
use rules::Node;
use schema::{parent, placed};
use tags::{after, closing, content_start, tag_end};

/// A walk through the nodes of a document, in document order.
#[derive(Clone, Copy)]
pub struct Walk<'a> {
    document: &'a [u8],
    at: usize,
    open: Option<Node>,
}

impl<'a> Walk<'a> {
    /// A walk from the start of a document.
    pub fn new(document: &'a [u8]) -> Walk<'a>
        ensures same { result.document.now ≡ document.now }
        ensures comes { (m : Document) → Marks document.now m → InOrder document.now m → Comes result (met m) }
    {
        Walk {
            document,
            at: content_start(document),
            open: None,
        }
    }

    /// Closes the open node, whose end stands at `place`.
    fn leave(&mut self, place: usize) -> Option<Event>
        requires within { place < length self.old.document.now }
        requires reached { place ≡ self.old.at + prefix_len blank (drop self.old.at self.old.document.now) }
        requires ends { shuts (drop place self.old.document.now) ≡ true }
        ensures meets { Meets self.old result self.new }
        ensures within { IfSome result (λ _. (place < self.new.at) × (self.new.at ≤ length self.new.document.now)) }
    {
        let node = self.open?;
        self.at = after(self.document, place);
        self.open = parent(node);
        Some(Event::Closed(node))
    }

    /// Opens the node whose `<` stands at `place`.
    fn enter(&mut self, place: usize) -> Option<Event>
        requires within { place + 1 < length self.old.document.now }
        requires reached { place ≡ self.old.at + prefix_len blank (drop self.old.at self.old.document.now) }
        requires begins { shuts (drop place self.old.document.now) ≡ false }
        ensures meets { Meets self.old result self.new }
        ensures within { IfSome result (λ _. (place < self.new.at) × (self.new.at ≤ length self.new.document.now)) }
    {
        let attributes = skip(NameByte, self.document, place + 1);
        let close = tag_end(self.document, attributes);
        let node = placed(self.open, &self.document[place + 1..attributes])?;
        let (childless, at) = match self.document.get(close)? {
            b'/' => (true, close),
            _ => (
                closing(self.document, skip(Blank, self.document, close + 1)),
                close + 1,
            ),
        };
        self.at = at;
        self.open = Some(node);
        Some(Event::Opened(Opened {
            node,
            place,
            attributes,
            childless,
        }))
    }
}

impl Iterator for Walk<'_> {
    type Item = Event;

    ghost next_gives = { Meets };

    ghost remaining = { λ w. at_most (left w) };

    /// What the walk meets next; none where the document ends.
    fn next(&mut self) -> Option<Event> {
        let place = skip(Blank, self.document, self.at);
        let first = *self.document.get(place)?;
        if first == b'/' || closing(self.document, place) {
            self.leave(place)
        } else {
            self.enter(place)
        }
    }
}

/// A walk opens the nodes that stand in a document, each once and in document order.
pub fn opens_each_node() -> bool
    ensures { OpensEachNode }
{
    true
}
