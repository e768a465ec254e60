// The calls that only an open register has.
ghost use Rattle.std.specs.Prelude.{◌≡◌, List};
ghost use Rattle.rules.specs.Register.{State, new as new_register, Call, Answer, Step, Event, Run};
ghost use Rattle.promises.specs.RegisterLaws.{Promises};
ghost use Rattle.register.specs.States.{open_state, closed_state};

use crate::copying::{LENGTH_BYTES, store};
use crate::{ClosedRegister, Open, Register};
use catalogues::CatalogueSet;
use fair::fair_copy_length;
use invoice::check;
use rules::Fault;
use std::marker::PhantomData;

/// The most bytes of its memory that a register uses.
const ROOM: usize = 1_048_576;

/// The most entries that a register has.
const MOST_ENTRIES: u16 = 256;

impl<'a> Register<'a, Open> {
    /// Opens a register over lent memory, which is never refused. It has no entry, whatever the memory holds, and keeps its promises after every list of calls.
    pub fn open(memory: &'a mut [u8]) -> Register<'a>
        ensures state { open_state result ≡ new_register memory.old }
        ensures lent { result.memory.ghost_name ≡ memory.entry.ghost_name }
        ensures promises { (h : List Event) (s : State) → Run (new_register memory.old) h s → Promises memory.old h s }
    {
        Register {
            memory,
            used: 0,
            count: 0,
            phase: PhantomData,
        }
    }

    /// Enters a document under a catalogue set, and answers the number of its entry: the first fault of the document, 11 where an entry has equal values, 12 at 256 entries, 13 where its fair copy and four bytes exceed what is free. A refusal changes nothing.
    pub fn enter<C: CatalogueSet>(&mut self, document: &[u8], set: &C) -> Result<u16, Fault>
        ensures step { Step (open_state self.old) (Call.enter (C.CatalogueSet.facts set.now) document.now) (Answer.entering result) (open_state self.new) }
        ensures lent { self.new.memory.ghost_name ≡ self.old.memory.ghost_name }
    {
        check(document, set)?;
        let copy_length = fair_copy_length(document);
        if let Some(entry) = self.find(document, copy_length) {
            return Err(Fault::AlreadyEntered { entry });
        }
        if self.count >= MOST_ENTRIES {
            return Err(Fault::Full);
        }
        let used = self.used;
        let needed = copy_length + LENGTH_BYTES;
        if self.memory.len().min(ROOM) - used < needed {
            return Err(Fault::NoRoom);
        }
        store(document, &mut self.memory[used..used + needed]);
        self.used += needed;
        self.count += 1;
        Ok(self.count)
    }

    /// Closes the register, which takes no more invoices then.
    pub fn close(self) -> ClosedRegister<'a>
        ensures step { Step (open_state self.entry) Call.close Answer.closing (closed_state result) }
        ensures lent { result.memory.ghost_name ≡ self.entry.memory.ghost_name }
    {
        let Register {
            memory,
            used,
            count,
            phase: _,
        } = self;
        Register {
            memory,
            used,
            count,
            phase: PhantomData,
        }
    }
}
