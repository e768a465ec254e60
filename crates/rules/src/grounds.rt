// The faults that a judgement answers, the layers that they belong to, and the account rules.
ghost use Rattle.std.specs.Prelude.{◌≡◌, Some};
ghost use Rattle.rules.specs.Faults.{number_of, layer_of, place_of, letter_of, layer_name, fault_line};

use std::fmt;

/// The rules that the accounts of an invoice keep, by their letters.
#[derive(Clone, Copy, Debug, PartialEq, Eq)]
pub enum Rule {
    A,
    B,
    C,
    D,
    E,
    F,
    G,
}

impl Rule {
    /// The letter that names the rule.
    pub fn letter(self) -> char
        ensures { result ≡ letter_of self }
    {
        match self {
            Rule::A => 'A',
            Rule::B => 'B',
            Rule::C => 'C',
            Rule::D => 'D',
            Rule::E => 'E',
            Rule::F => 'F',
            Rule::G => 'G',
        }
    }
}

/// The layers of a judgement, in the order in which they are judged.
#[derive(Clone, Copy, Debug, PartialEq, Eq)]
pub enum Layer {
    Letters,
    Markup,
    Tree,
    Names,
    Values,
    Accounts,
    Register,
    Sink,
    Catalogue,
}

impl Layer {
    /// The name that the layer prints.
    pub fn name(self) -> &'static str
        ensures { result.now ≡ layer_name self }
    {
        match self {
            Layer::Letters => "letters",
            Layer::Markup => "markup",
            Layer::Tree => "tree",
            Layer::Names => "names",
            Layer::Values => "values",
            Layer::Accounts => "accounts",
            Layer::Register => "register",
            Layer::Sink => "sink",
            Layer::Catalogue => "catalogue",
        }
    }
}

impl fmt::Display for Layer {
    ghost output = { λ l. Some (layer_name l) };

    fn fmt<W: fmt::Write>(&self, f: &mut fmt::Formatter<W>) -> fmt::Result {
        f.write_str(self.name())
    }
}

/// One exact ground of refusal, with its place and what else it tells.
#[derive(Clone, Copy, Debug)]
pub enum Fault {
    TooLong,
    BadLetter { place: usize },
    NotWellMarked { place: usize },
    Misplaced { place: usize },
    Unfinished { place: usize },
    AttributeRefused { place: usize },
    AttributeMissing { place: usize },
    NotAdmitted { place: usize },
    NotInCatalogue { place: usize },
    AccountBroken { rule: Rule, place: usize },
    AlreadyEntered { entry: u16 },
    Full,
    NoRoom,
    NoEntry,
    Stopped { taken: usize },
    BadCatalogue,
    BadCatalogueLine { place: usize },
}

impl Fault {
    /// The number of the ground, 1 to 17.
    pub fn number(self) -> u8
        ensures { result ≡ number_of self }
    {
        match self {
            Fault::TooLong => 1,
            Fault::BadLetter { place: _ } => 2,
            Fault::NotWellMarked { place: _ } => 3,
            Fault::Misplaced { place: _ } => 4,
            Fault::Unfinished { place: _ } => 5,
            Fault::AttributeRefused { place: _ } => 6,
            Fault::AttributeMissing { place: _ } => 7,
            Fault::NotAdmitted { place: _ } => 8,
            Fault::NotInCatalogue { place: _ } => 9,
            Fault::AccountBroken { rule: _, place: _ } => 10,
            Fault::AlreadyEntered { entry: _ } => 11,
            Fault::Full => 12,
            Fault::NoRoom => 13,
            Fault::NoEntry => 14,
            Fault::Stopped { taken: _ } => 15,
            Fault::BadCatalogue => 16,
            Fault::BadCatalogueLine { place: _ } => 17,
        }
    }

    /// The layer that the ground belongs to.
    pub fn layer(self) -> Layer
        ensures { result ≡ layer_of self }
    {
        match self {
            Fault::TooLong | Fault::BadLetter { place: _ } => Layer::Letters,
            Fault::NotWellMarked { place: _ } => Layer::Markup,
            Fault::Misplaced { place: _ } | Fault::Unfinished { place: _ } => Layer::Tree,
            Fault::AttributeRefused { place: _ } | Fault::AttributeMissing { place: _ } =>
                Layer::Names,
            Fault::NotAdmitted { place: _ } | Fault::NotInCatalogue { place: _ } => Layer::Values,
            Fault::AccountBroken { rule: _, place: _ } => Layer::Accounts,
            Fault::AlreadyEntered { entry: _ } | Fault::Full | Fault::NoRoom | Fault::NoEntry =>
                Layer::Register,
            Fault::Stopped { taken: _ } => Layer::Sink,
            Fault::BadCatalogue | Fault::BadCatalogueLine { place: _ } => Layer::Catalogue,
        }
    }

    /// The place of the ground: bytes before it in the document or the text, or bytes that the sink took.
    pub fn place(self) -> usize
        ensures { result ≡ place_of self }
    {
        match self {
            Fault::TooLong => 65_536,
            Fault::BadLetter { place }
            | Fault::NotWellMarked { place }
            | Fault::Misplaced { place }
            | Fault::Unfinished { place }
            | Fault::AttributeRefused { place }
            | Fault::AttributeMissing { place }
            | Fault::NotAdmitted { place }
            | Fault::NotInCatalogue { place }
            | Fault::AccountBroken { rule: _, place }
            | Fault::BadCatalogueLine { place } => place,
            Fault::AlreadyEntered { entry: _ }
            | Fault::Full
            | Fault::NoRoom
            | Fault::NoEntry
            | Fault::BadCatalogue => 0,
            Fault::Stopped { taken } => taken,
        }
    }
}

impl fmt::Display for Fault {
    ghost output = { λ f. Some (fault_line f) };

    fn fmt<W: fmt::Write>(&self, f: &mut fmt::Formatter<W>) -> fmt::Result {
        let number = self.number();
        let layer = self.layer();
        let place = self.place();
        write!(f, "{number} {layer} {place}")
    }
}
