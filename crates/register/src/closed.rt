// The reading out of a closed register.
ghost use Rattle.std.specs.Prelude.{◌≡◌};
ghost use Rattle.rules.specs.Register.{used_up, memory as memory_of, in_phase, Call};
ghost use Rattle.register.specs.States.{closed_state};
ghost use Rattle.register.specs.Sending.{Sends};

use crate::{Closed, Register};
use rules::Fault;
use sinks::{Sink, send_text};

impl<'a> Register<'a, Closed> {
    /// Sends every cadena in the order entered, each with a line feed, up to the first byte that the sink refuses. The register is used up, and its memory is given back as it stands.
    pub fn read_out<S: Sink>(self, sink: &mut S) -> (Result<(), Fault>, &'a mut [u8])
        ensures step { Sends S.Sink (closed_state self.entry) Call.read_out sink.old result.0 sink.new (in_phase used_up (closed_state self.entry)) }
        ensures memory { result.1.now ≡ memory_of (closed_state self.entry) }
        ensures lent { result.1.ghost_name ≡ self.entry.memory.ghost_name }
    {
        let answer = send_text(&self.texts(), sink);
        (answer, self.memory)
    }
}
