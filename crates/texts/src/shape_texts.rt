// The two texts of a document that has its shape, without any catalogue.
ghost use Rattle.std.specs.Prelude.{◌≡◌, OnOk};
ghost use Rattle.rules.specs.Faults.{Judgement, fault_of};
ghost use Rattle.rules.specs.Grounds.{ShapeFinds};
ghost use Rattle.rules.specs.Texts.{cadena as cadena_of, fair_copy as fair_copy_of};
ghost use Rattle.theory.specs.Shape.{HasShape};
ghost use Rattle.texts.specs.OfShape.{ShapeAnswered, ShapeLength, ShapeCopyLaw};

use crate::shape::Shape;
use fair::send_fair_copy;
use layers::judge_shape;
use original::send_cadena;
use rules::Fault;
use sinks::Sink;

impl<'a> Shape<'a> {
    /// Reads a document for its shape. It is never refused: the fault that was found, if any, is what the other calls answer.
    pub fn read(document: &'a [u8]) -> Shape<'a>
        ensures document { result.document.now ≡ document.now }
        ensures judged { Judgement (ShapeFinds document.now) (fault_of result.found) }
    {
        Shape {
            document,
            found: judge_shape(document),
        }
    }

    /// Whether the document has its shape; if not, its first fault.
    pub fn verdict(&self) -> Result<(), Fault>
        ensures told { fault_of result ≡ fault_of self.now.found }
        ensures shape { OnOk result (HasShape self.now.document.now) }
    {
        self.found
    }

    /// Sends the cadena of the document to a sink: its fault and nothing sent, else as much of the cadena as the sink takes.
    pub fn cadena<S: Sink>(&self, sink: &mut S) -> Result<(), Fault>
        ensures { ShapeAnswered S.Sink self.now.document.now (fault_of self.now.found) cadena_of sink.old result sink.new }
    {
        self.verdict()?;
        send_cadena(self.document, sink)
    }

    /// Sends the fair copy of the document to a sink, in the same way.
    pub fn fair_copy<S: Sink>(&self, sink: &mut S) -> Result<(), Fault>
        ensures answered { ShapeAnswered S.Sink self.now.document.now (fault_of self.now.found) fair_copy_of sink.old result sink.new }
        ensures law { ShapeCopyLaw self.now.document.now }
    {
        self.verdict()?;
        send_fair_copy(self.document, sink)
    }

    /// How many bytes the fair copy of the document has, counted without writing it anywhere; or its fault.
    pub fn fair_copy_length(&self) -> Result<usize, Fault>
        ensures { ShapeLength self.now.document.now (fault_of self.now.found) result }
    {
        self.verdict()?;
        Ok(fair::fair_copy_length(self.document))
    }
}
