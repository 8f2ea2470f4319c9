// The program: opens `rules.bin` and `bundle.bin` in the directory it is run in, and prints the listing of their marks. What a file gives and
// what becomes of the output no proof can say; that the bytes written are the whole listing of the bytes read is proved.
#![tactic(auto)]

ghost use Rattle.std.specs.Prelude.{take, OnOk};
ghost use Rattle.std.specs.Io.KnownBytes.{Appends, Consumes};
ghost use Rattle.listing.specs.Listing.{lines_of, line_at, lines_from, listing_of};
ghost use Rattle.cleaner.specs.Counts.{IsPrefixLen};
ghost use Rattle.cleaner.specs.Prints.{Prints};

use clashes::Counts;
use number::Answer;
use site::Fact;
use std::io::{Read, Write};
use std::rt::Files;
use std::{fs, io};

// The bytes of a reader from its start on, until the buffer is full, the reader ends or a read fails; the answer is how many.
fn fill<R: Read>(reader: &mut R, buffer: &mut [u8; 65536]) -> usize
    ensures count { IsPrefixLen result buffer.new }
    ensures bytes { Consumes (R.remaining reader.old) (R.remaining reader.new) (take result buffer.new) }
{
    let mut count = 0;
    while count < buffer.len() {
        match reader.read(&mut buffer[count..]) {
            Ok(n) if n > 0 => count += n,
            _ => break,
        }
    }
    count
}

// The start of a file, up to the 65,536 bytes of the buffer: no valid file is longer than 28,674 bytes, so a longer one is refused in its
// start as in its whole. "A file that cannot be opened counts as one of no bytes."
fn read_file(rt: &impl Files, path: &str, buffer: &mut [u8; 65536]) -> usize
    ensures { IsPrefixLen result buffer.new }
{
    match fs::open(rt, path) {
        Ok(mut file) => fill(&mut file, buffer),
        Err(_) => 0,
    }
}

// The line of this number, after what has been written.
fn print_line<W: Write>(
    out: &mut W,
    counted: Answer<Counts>,
    marks: &[u8],
    partners: &[u16],
    number: usize,
) -> io::Result<()>
    requires { Prints counted marks.now partners.now number }
    ensures { OnOk result (Appends (W.contents out.old) (W.contents out.new) (line_at counted marks.now partners.now number)) }
{
    let mut line = [0u8; listing::ROOM];
    let length = listing::write_line(&mut line, counted, marks, partners, number);
    out.write_all(&line[..length])
}

// Every line, in order.
fn print_listing<W: Write>(
    out: &mut W,
    counted: Answer<Counts>,
    marks: &[u8],
    partners: &[u16],
) -> io::Result<()>
    requires { Prints counted marks.now partners.now 0 }
    ensures { OnOk result (Appends (W.contents out.old) (W.contents out.new)
        (lines_from counted marks.now partners.now 0 (lines_of counted))) }
{
    for number in 0..listing::count_lines(counted) {
        print_line(out, counted, marks, partners, number)?;
    }
    Ok(())
}

// What the program prints for these rules and this bundle.
fn clean<W: Write>(out: &mut W, rules: &[u8], bundle: &[u8]) -> io::Result<()>
    ensures { OnOk result (Appends (W.contents out.old) (W.contents out.new) (listing_of rules.now bundle.now)) }
{
    let mut marks = [0u8; Fact::MOST];
    let mut partners = [0u16; Fact::MOST];
    let counted = operations::mark_bundle(rules, bundle, &mut marks, &mut partners);
    print_listing(out, counted, &marks, &partners)
}

fn main(rt: HostRuntime) -> io::Result<()> {
    let mut rules = [0u8; 65536];
    let mut bundle = [0u8; 65536];
    let rules_count = read_file(&rt, "rules.bin", &mut rules);
    let bundle_count = read_file(&rt, "bundle.bin", &mut bundle);
    clean(
        &mut io::writer(&rt),
        &rules[..rules_count],
        &bundle[..bundle_count],
    )
}
