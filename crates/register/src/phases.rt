// The phases of a register, as types.
ghost use Rattle.std.specs.Prelude.{◌≡◌, true, refl};
ghost use Rattle.rules.specs.Register.{Phase as PhaseOf, opened, closed};
ghost use Rattle.register.specs.Phases.{in_use};

/// A phase in which a register answers questions.
pub trait Phase {
    ghost phase: { PhaseOf };

    ghost answers: { in_use phase ≡ true };
}

/// A register in this phase takes invoices.
#[derive(Clone, Copy)]
pub struct Open;

/// A register in this phase takes no more invoices, and may be read out.
#[derive(Clone, Copy)]
pub struct Closed;

impl Phase for Open {
    ghost phase = { opened };

    ghost answers = { refl };
}

impl Phase for Closed {
    ghost phase = { closed };

    ghost answers = { refl };
}
