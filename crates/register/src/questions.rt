// The questions that a register answers in either phase.
ghost use Rattle.std.specs.Prelude.{◌≡◌};
ghost use Rattle.rules.specs.Register.{Call, Answer, Step};
ghost use Rattle.register.specs.States.{state_of};
ghost use Rattle.register.specs.Sending.{Sends};

use crate::{Phase, Register};
use original::send_cadena;
use rules::Fault;
use sinks::{Sink, send_to};

impl<P: Phase> Register<'_, P> {
    /// How many entries there are.
    pub fn count(&self) -> u16
        ensures { Step (state_of P.phase self.now) Call.ask_count (Answer.counting result) (state_of P.phase self.now) }
    {
        self.count
    }

    /// Sends the cadena of an entry to a sink: 14 where there is no such entry, before the sink is asked, and 15 where the sink stops.
    pub fn cadena<S: Sink>(&self, number: u16, sink: &mut S) -> Result<(), Fault>
        ensures { Sends S.Sink (state_of P.phase self.now) (Call.ask_cadena number) sink.old result sink.new (state_of P.phase self.now) }
    {
        let text = self.text(number).ok_or(Fault::NoEntry)?;
        send_cadena(text, sink)
    }

    /// Sends the fair copy of an entry to a sink, in the same way.
    pub fn fair_copy<S: Sink>(&self, number: u16, sink: &mut S) -> Result<(), Fault>
        ensures { Sends S.Sink (state_of P.phase self.now) (Call.ask_fair_copy number) sink.old result sink.new (state_of P.phase self.now) }
    {
        let copy = self.text(number).ok_or(Fault::NoEntry)?;
        send_to(sink, copy)
    }
}
