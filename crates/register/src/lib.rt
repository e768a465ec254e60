//! A register of invoices over lent memory: open until it is closed, and closed until it is read out.
#![tactic(auto)]

ghost use Rattle.std.specs.Prelude.{◌≡◌, true};
ghost use Rattle.promises.specs.Stored.{decoded, holds, AllCopies};

mod closed;
mod copying;
mod entries;
mod open;
mod phases;
mod questions;
mod texts;

pub use phases::{Closed, Open, Phase};
use std::marker::PhantomData;

/// A register in a phase: an open one takes invoices, and one in either phase answers for those that it has.
#[derive(Drop)]
pub struct Register<'a, P = Open> {
    memory: &'a mut [u8],
    used: usize,
    count: u16,
    phase: PhantomData<P>,
    ghost held: { holds memory.now used count ≡ true },
    ghost copies: { ∥ AllCopies (decoded count memory.now) ∥₁ },
}

/// A closed register, which takes no more invoices.
pub type ClosedRegister<'a> = Register<'a, Closed>;
