// The line that tells what became of a file.
ghost use Rattle.std.specs.Prelude.{ℕ, Some};
ghost use Rattle.registro.specs.Lines.{beside, line_of};

use rules::Fault;
use std::fmt;

/// What a fault tells beside its number, layer and place: the letter of a rule, or an entry.
#[derive(Clone, Copy)]
pub struct Beside(Fault);

impl fmt::Display for Beside {
    ghost output = { λ b. Some (beside b.0) };

    fn fmt<W: fmt::Write>(&self, f: &mut fmt::Formatter<W>) -> fmt::Result {
        match self.0 {
            Fault::AccountBroken { rule, place: _ } => {
                let letter = rule.letter();
                write!(f, " {letter}")
            }
            Fault::AlreadyEntered { entry } => write!(f, " {entry}"),
            _ => Ok(()),
        }
    }
}

/// A file's name with the number of its entry, or with the fault and what it tells beside its place.
#[derive(Drop)]
pub struct Line<'a> {
    pub name: &'a str,
    pub answer: Result<u16, Fault>,
}

impl fmt::Display for Line<'_> {
    ghost output = { λ l. Some (line_of l.name.now l.answer) };

    fn fmt<W: fmt::Write>(&self, f: &mut fmt::Formatter<W>) -> fmt::Result {
        let name = self.name;
        match self.answer {
            Ok(entry) => write!(f, "{name}: {entry}"),
            Err(fault) => {
                let beside = Beside(fault);
                write!(f, "{name}: {fault}{beside}")
            }
        }
    }
}
