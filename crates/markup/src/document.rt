// The walk over a document, from its start to its end, once.
ghost use Rattle.std.specs.Prelude.{◌≡◌, ◌+◌, ◌<◌, [], length, IfOk, OnOk};
ghost use Rattle.rules.specs.Markup.{WellMarked};
ghost use Rattle.rules.specs.Faults.{Judgement, fault_of};
ghost use Rattle.rules.specs.Grounds.{MarkupFault};
ghost use Rattle.markup.specs.Machine.{Place, Stack, start, ending, closed};
ghost use Rattle.markup.specs.Reads.{Awaits, GoesOn, Begun, Comes, Opens};

use crate::reader::Reader;
use crate::tag::{StartTag, Turn};
use byte_classes::{Blank, NameByte};
use rules::Fault;

/// The one declaration that a document may begin with.
const DECLARATION: &[u8] = b"<?xml version=\"1.0\" encoding=\"UTF-8\"?>";

/// A start tag that has been read: its name, and whether it ends with `/>`.
#[derive(Clone, Copy)]
pub(crate) struct Opened<'a> {
    pub(crate) name: &'a [u8],
    pub(crate) lone: bool,
}

impl<'a> Reader<'a> {
    /// Reads blanks and the byte `mark` after them.
    fn expect(&mut self, mark: u8) -> Result<(), Fault>
        ensures same { self.new.doc.now ≡ self.old.doc.now }
        ensures further { IfOk result (λ _. self.old.at < self.new.at) }
        ensures reads { (p q : Place) → Awaits p mark q → GoesOn self.old p → Comes self.new result q }
    {
        self.skip(Blank);
        if self.doc.get(self.at) != Some(&mark) {
            return Err(Fault::NotWellMarked { place: self.at });
        }
        self.at += 1;
        Ok(())
    }

    /// Reads a start tag from behind its `<`.
    fn start_tag(&mut self) -> Result<Opened<'a>, Fault>
        ensures same { self.new.doc.now ≡ self.old.doc.now }
        ensures further { IfOk result (λ _. self.old.at < self.new.at) }
        ensures reads { (s : Stack) → Begun self.old s → Opens self.new s result }
    {
        let start = self.at;
        self.skip(NameByte);
        if self.at == start {
            return Err(Fault::NotWellMarked { place: start });
        }
        let name = &self.doc[start..self.at];
        let mut tag = StartTag::named();
        let lone = loop {
            let Some(b) = self.doc.get(self.at) else {
                return Err(Fault::NotWellMarked { place: self.at });
            };
            match tag.step(*b) {
                Turn::Goes => {
                    self.at += 1;
                    tag.skip(self);
                }
                Turn::Opens => break false,
                Turn::Closes => break true,
                Turn::Refuses => return Err(Fault::NotWellMarked { place: self.at }),
            }
        };
        self.at += 1;
        Ok(Opened { name, lone })
    }

    /// Reads the end tag of the element `name` from behind its `</`.
    fn end_tag(&mut self, name: &[u8]) -> Result<(), Fault>
        ensures same { self.new.doc.now ≡ self.old.doc.now }
        ensures further { IfOk result (λ _. self.old.at < self.new.at) }
        ensures reads { (s : Stack) → GoesOn self.old (ending name.now s) → Comes self.new result (closed s) }
    {
        if self.shared(name) < name.len() {
            return Err(Fault::NotWellMarked { place: self.at });
        }
        self.expect(b'>')
    }

    /// Reads an element from behind its `<`, with elements at most `depth` deep in it.
    /// It calls itself once for each child, with one level less, so from the root at most six calls are open at a time.
    fn element(&mut self, depth: u8) -> Result<(), Fault>
        ensures same { self.new.doc.now ≡ self.old.doc.now }
        ensures further { IfOk result (λ _. self.old.at < self.new.at) }
        ensures reads { (s : Stack) → length s + depth ≡ 5 → Begun self.old s → Comes self.new result (closed s) }
    {
        let Opened { name, lone } = self.start_tag()?;
        if lone {
            return Ok(());
        }
        loop {
            self.expect(b'<')?;
            if self.doc.get(self.at) == Some(&b'/') {
                self.at += 1;
                return self.end_tag(name);
            }
            let inner = depth
                .checked_sub(1)
                .ok_or(Fault::NotWellMarked { place: self.at })?;
            self.element(inner)?;
        }
    }

    /// Reads what stands before the root, and its `<`, from the start of the document.
    fn prolog(&mut self) -> Result<(), Fault>
        ensures same { self.new.doc.now ≡ self.old.doc.now }
        ensures reads { self.old.at ≡ 0 → Comes self.new result (start []) }
    {
        match self.shared(DECLARATION) {
            0 => self.expect(b'<'),
            // Where only the `<` is shared, it is the root's.
            1 => Ok(()),
            head if head == DECLARATION.len() => self.expect(b'<'),
            _ => Err(Fault::NotWellMarked { place: self.at }),
        }
    }
}

/// Checks that a document is well marked; where it is not, the fault tells the length of its longest beginning with
/// which some well-marked document begins too. No byte is read more than three times, so the time is linear in the
/// document's length, and the walk over its elements is at most six calls deep.
pub fn check(document: &[u8]) -> Result<(), Fault>
    ensures judged { Judgement (MarkupFault document.now) (fault_of result) }
    ensures marked { OnOk result (WellMarked document.now) }
{
    let mut reader = Reader::new(document);
    reader.prolog()?;
    reader.element(5)?;
    reader.skip(Blank);
    if reader.at < document.len() {
        return Err(Fault::NotWellMarked { place: reader.at });
    }
    Ok(())
}
