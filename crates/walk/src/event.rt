// The events of a walk.
ghost use Rattle.std.specs.Prelude.{◌≡◌};

use rules::Node;

/// A node that is opened.
#[derive(Clone, Copy)]
pub struct Opened {
    pub node: Node,
    /// The place of its `<`.
    pub place: usize,
    /// The place after its name, where its attributes begin.
    pub attributes: usize,
    /// Whether no element stands inside it.
    pub childless: bool,
}

/// What a walk meets: a node that is opened, or one that is closed.
#[derive(Clone, Copy)]
pub enum Event {
    Opened(Opened),
    Closed(Node),
}

impl Event {
    ghost use Rattle.walk.specs.Opening.{opening};

    /// The node that is opened, if one is.
    pub fn opened(self) -> Option<Opened>
        ensures { result ≡ opening self }
    {
        match self {
            Event::Opened(opened) => Some(opened),
            Event::Closed(_) => None,
        }
    }
}
