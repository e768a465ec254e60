// Judges the invoice on standard input by the catalogues in catalogos.txt, and prints its cadena or why it is refused.
#![tactic(auto)]

use catalogues::CatalogueText;
use rules::Fault;
use sinks::Buffer;
use std::fs::File;
use std::io;
use std::io::{Read, Write};

/// One byte more than a document or a catalogue text may have, which is enough to tell that it is too long.
const ENOUGH: u64 = 65_537;

/// The most bytes that a cadena has, since it is never longer than its document.
const LONGEST: usize = 65_536;

/// Reads a file or a stream as far as a judgement needs it.
fn read<R: Read + Drop>(rt: &HostRuntime, from: R) -> io::Result<Vec<u8>> {
    let mut bytes = Vec::new(rt.alloc());
    let _ = from.take(ENOUGH).read_to_end(&mut bytes)?;
    Ok(bytes)
}

fn read_catalogues(rt: &HostRuntime) -> io::Result<Vec<u8>> {
    read(rt, File::open(rt, "catalogos.txt")?)
}

/// Says on standard error why there is no verdict.
fn explain<T: Drop>(rt: &HostRuntime, what: &str, outcome: io::Result<T>) -> io::Result<T> {
    if let Err(e) = &outcome {
        eprintln!(rt; "cadena: {what}: {e}")?;
    }
    outcome
}

/// Judges the catalogue text, and then the document under its set; puts the cadena into the room and gives its length.
fn judge(catalogue_text: &[u8], document: &[u8], room: &mut [u8]) -> Result<usize, Fault> {
    catalogues::check(catalogue_text)?;
    let set = CatalogueText::new(catalogue_text);
    let mut buffer = Buffer::new(room);
    texts::cadena(document, &set, &mut buffer)?;
    Ok(buffer.count())
}

fn print_line(rt: &HostRuntime, line: &[u8]) -> io::Result<()> {
    let mut out = rt.stdout();
    out.write_all(line)?;
    out.write_all(b"\n")
}

fn run(rt: &HostRuntime) -> io::Result<()> {
    let catalogue_text = explain(rt, "catalogos.txt cannot be read", read_catalogues(rt))?;
    let document = explain(rt, "the document cannot be read", read(rt, rt.stdin()))?;
    let mut room = vec![in rt.alloc(); 0; LONGEST]?;
    let verdict = match judge(&catalogue_text, &document, &mut room) {
        Ok(length) => print_line(rt, &room[0..length.min(room.len())]),
        Err(fault) => println!(rt; "{fault}"),
    };
    explain(rt, "the verdict cannot be printed", verdict)
}

fn main(rt: HostRuntime) -> io::Result<()> {
    run(&rt)
}
