// The start tag of an element after its name, read byte by byte.
ghost use Rattle.std.specs.Prelude.{◌≡◌, ◌≤◌, length};
ghost use Rattle.markup.specs.Tags.{next, spell, moved, Stays};

use crate::bytes::PlainByte;
use crate::reader::Reader;
use byte_classes::{NameByte, is_blank, is_name_byte};

/// The quote that a value stands in.
#[derive(Clone, Copy)]
pub enum Quote {
    Single,
    Double,
}

/// How much of an escape has been read after its `&`: `Angle` is `l` or `g`, and `Whole` lacks its `;` alone.
#[derive(Clone, Copy)]
pub enum Spelling {
    Begun,
    A,
    Am,
    Ap,
    Apo,
    Angle,
    Q,
    Qu,
    Quo,
    Whole,
}

/// Where in a start tag the next byte stands.
#[derive(Clone, Copy)]
pub enum State {
    /// Just after the name of the element or a value.
    Part,
    /// After a blank, where an attribute may begin.
    Gap,
    /// In the name of an attribute.
    Attribute,
    /// In the blanks after the name of an attribute.
    Named,
    /// After the `=` of an attribute.
    Equals,
    /// In a value.
    Value(Quote),
    /// In an escape of a value.
    Escape(Quote, Spelling),
    /// Just after a `/`.
    Slash,
}

/// What one byte more makes of a start tag.
#[derive(Clone, Copy)]
pub enum Turn {
    /// It goes on.
    Goes,
    /// It ends with `>`.
    Opens,
    /// It ends with `/>`.
    Closes,
    /// No start tag goes on so.
    Refuses,
}

impl Spelling {
    /// The escape with one letter more, if there is such an escape.
    fn step(self, b: u8) -> Option<Spelling>
        ensures { result ≡ spell self b }
    {
        match (self, b) {
            (Spelling::Begun, b'a') => Some(Spelling::A),
            (Spelling::Begun, b'l' | b'g') => Some(Spelling::Angle),
            (Spelling::Begun, b'q') => Some(Spelling::Q),
            (Spelling::A, b'm') => Some(Spelling::Am),
            (Spelling::A, b'p') => Some(Spelling::Ap),
            (Spelling::Am, b'p') => Some(Spelling::Whole),
            (Spelling::Ap, b'o') => Some(Spelling::Apo),
            (Spelling::Apo, b's') => Some(Spelling::Whole),
            (Spelling::Angle, b't') => Some(Spelling::Whole),
            (Spelling::Q, b'u') => Some(Spelling::Qu),
            (Spelling::Qu, b'o') => Some(Spelling::Quo),
            (Spelling::Quo, b't') => Some(Spelling::Whole),
            _ => None,
        }
    }
}

/// A start tag, as far as it has been read.
#[derive(Clone, Copy)]
pub struct StartTag {
    state: State,
}

impl StartTag {
    /// A start tag whose name has been read.
    pub fn named() -> StartTag
        ensures { result.state ≡ State.Part }
    {
        StartTag { state: State::Part }
    }

    /// Reads one byte more.
    pub fn step(&mut self, b: u8) -> Turn
        ensures { next self.old.state b ≡ moved result self.new.state }
    {
        match (self.state, b) {
            (State::Part | State::Gap, _) if is_blank(b) => self.enter(State::Gap),
            (State::Part | State::Gap, b'/') => self.enter(State::Slash),
            (State::Part | State::Gap, b'>') => Turn::Opens,
            (State::Gap | State::Attribute, _) if is_name_byte(b) => self.enter(State::Attribute),
            (State::Attribute | State::Named, _) if is_blank(b) => self.enter(State::Named),
            (State::Attribute | State::Named, b'=') => self.enter(State::Equals),
            (State::Equals, _) if is_blank(b) => self.enter(State::Equals),
            (State::Equals, b'"') => self.enter(State::Value(Quote::Double)),
            (State::Equals, b'\'') => self.enter(State::Value(Quote::Single)),
            (State::Value(Quote::Double), b'"') => self.enter(State::Part),
            (State::Value(Quote::Single), b'\'') => self.enter(State::Part),
            (State::Value(q), b'&') => self.enter(State::Escape(q, Spelling::Begun)),
            (State::Value(_), b'<' | b'>' | b'"' | b'\'') => Turn::Refuses,
            (State::Value(q), _) => self.enter(State::Value(q)),
            (State::Escape(q, Spelling::Whole), b';') => self.enter(State::Value(q)),
            (State::Escape(q, e), _) => match e.step(b) {
                Some(e) => self.enter(State::Escape(q, e)),
                None => Turn::Refuses,
            },
            (State::Slash, b'>') => Turn::Closes,
            _ => Turn::Refuses,
        }
    }

    /// Reads what is left of an attribute's name, or plain bytes of a value, which leave the tag in its state.
    pub(crate) fn skip(&self, reader: &mut Reader<'_>)
        ensures same { reader.new.doc.now ≡ reader.old.doc.now }
        ensures stays { Stays self.now.state reader.old.doc.now reader.old.at reader.new.at }
    {
        match self.state {
            State::Attribute => reader.skip(NameByte),
            State::Value(_) => reader.skip(PlainByte),
            _ => {}
        }
    }

    /// Goes on in `state`.
    fn enter(&mut self, state: State) -> Turn
        ensures turn { result ≡ Turn.Goes }
        ensures state { self.new.state ≡ state }
    {
        self.state = state;
        Turn::Goes
    }
}
