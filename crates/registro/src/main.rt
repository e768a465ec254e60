// Enters the invoices in the named files into a register by the catalogues in catalogos.txt, prints what became of each, and then every cadena.
#![tactic(auto)]

mod line;

use catalogues::CatalogueText;
use line::Line;
use register::Register;
use rules::Fault;
use sinks::Buffer;
use std::fs::File;
use std::io::{Read, Write};
use std::{env, io};

/// One byte more than a document or a catalogue text may have, which is enough to tell that it is too long.
const ENOUGH: u64 = 65_537;

/// The most bytes of its memory that a register uses.
const ROOM: usize = 1_048_576;

/// Reads a file as far as a judgement needs it.
fn read(rt: &HostRuntime, name: &str) -> io::Result<Vec<u8>> {
    let mut bytes = Vec::new(rt.alloc());
    let _ = File::open(rt, name)?.take(ENOUGH).read_to_end(&mut bytes)?;
    Ok(bytes)
}

/// Memory for a register, or for all that it reads out.
fn make_room(rt: &HostRuntime) -> io::Result<Vec<u8>> {
    Ok(vec![in rt.alloc(); 0; ROOM]?)
}

/// Says on standard error why there is no verdict.
fn explain<T: Drop>(
    rt: &HostRuntime,
    what: &str,
    trouble: &str,
    outcome: io::Result<T>,
) -> io::Result<T> {
    if let Err(e) = &outcome {
        eprintln!(rt; "registro: {what} cannot be {trouble}: {e}")?;
    }
    outcome
}

/// Enters the invoice in a file, and prints its line.
fn enter_file(
    rt: &HostRuntime,
    register: &mut Register<'_>,
    set: &CatalogueText<'_>,
    name: &str,
) -> io::Result<()> {
    let document = explain(rt, name, "read", read(rt, name))?;
    let line = Line {
        name,
        answer: register.enter(&document, set),
    };
    explain(rt, "standard output", "written", println!(rt; "{line}"))
}

/// Enters the invoices in the named files, in the order of the arguments.
fn enter_files(
    rt: &HostRuntime,
    register: &mut Register<'_>,
    set: &CatalogueText<'_>,
) -> io::Result<()> {
    let names = explain(rt, "the arguments", "read", env::args(rt))?;
    for name in names.skip(1) {
        enter_file(rt, register, set, &name)?;
    }
    Ok(())
}

/// Prints the cadenas that were read out, or why they were not.
fn print_cadenas(rt: &HostRuntime, sent: Result<(), Fault>, cadenas: &[u8]) -> io::Result<()> {
    match sent {
        Ok(()) => rt.stdout().write_all(cadenas),
        Err(fault) => println!(rt; "{fault}"),
    }
}

/// Enters the named files under a set into a register, closes it and prints its cadenas.
fn run_register(rt: &HostRuntime, set: &CatalogueText<'_>) -> io::Result<()> {
    let mut memory = explain(rt, "memory", "had", make_room(rt))?;
    // As much room again holds all cadenas, since a cadena with its line feed is never longer than the stored entry with its four bytes.
    let mut room = explain(rt, "memory", "had", make_room(rt))?;
    let mut register = Register::open(&mut memory);
    enter_files(rt, &mut register, set)?;
    let mut buffer = Buffer::new(&mut room);
    let (sent, _) = register.close().read_out(&mut buffer);
    let printed = print_cadenas(rt, sent, buffer.bytes());
    explain(rt, "standard output", "written", printed)
}

fn run(rt: &HostRuntime) -> io::Result<()> {
    let catalogue_text = explain(rt, "catalogos.txt", "read", read(rt, "catalogos.txt"))?;
    match catalogues::check(&catalogue_text) {
        Ok(()) => run_register(rt, &CatalogueText::new(&catalogue_text)),
        Err(fault) => explain(rt, "standard output", "written", println!(rt; "{fault}")),
    }
}

fn main(rt: HostRuntime) -> io::Result<()> {
    run(&rt)
}
