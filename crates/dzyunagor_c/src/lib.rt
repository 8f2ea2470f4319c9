// What C calls: each public operation of the library under its C name, with the library's own promise and nothing asked of the caller. An export
// only hands on; the archive of this crate is the library that C and Rust link.
#![tactic(auto)]

ghost use Rattle.dzyunagor.specs.Promises.{CheckRules, CheckBundle, Mark, Count, Ask, Has, Joins, WriteKept, Records, WriteRecords, ReaderStart, ReaderNext};

use records::Record;
use rows::Reader;
use shown::{DzyAnswer, DzyAsked, DzyCounts, DzyLength, DzyStart, DzyYield};

// How many rules an accepted rule file has.
#[unsafe(no_mangle)]
pub extern "C" fn dzy_check_rules(rules: &[u8]) -> DzyLength
    ensures { CheckRules rules.now result }
{
    dzyunagor::dzy_check_rules(rules)
}

// How many facts an accepted bundle has, under accepted rules.
#[unsafe(no_mangle)]
pub extern "C" fn dzy_check_bundle(rules: &[u8], bundle: &[u8]) -> DzyLength
    ensures { CheckBundle rules.now bundle.now result }
{
    dzyunagor::dzy_check_bundle(rules, bundle)
}

// The marks and partners of a bundle's facts, into lent rows, and their counts.
#[unsafe(no_mangle)]
pub extern "C" fn dzy_mark(
    rules: &[u8],
    bundle: &[u8],
    marks: &mut [u8],
    partners: &mut [u16],
) -> DzyCounts
    ensures { Mark rules.now bundle.now marks.old partners.old result marks.new partners.new }
{
    dzyunagor::dzy_mark(rules, bundle, marks, partners)
}

// The counts alone.
#[unsafe(no_mangle)]
pub extern "C" fn dzy_count(rules: &[u8], bundle: &[u8]) -> DzyCounts
    ensures { Count rules.now bundle.now result }
{
    dzyunagor::dzy_count(rules, bundle)
}

// One fact's mark and partner.
#[unsafe(no_mangle)]
pub extern "C" fn dzy_ask(rules: &[u8], bundle: &[u8], fact: u64) -> DzyAsked
    ensures { Ask rules.now bundle.now fact result }
{
    dzyunagor::dzy_ask(rules, bundle, fact)
}

// "B of a"
#[unsafe(no_mangle)]
pub extern "C" fn dzy_has(rules: &[u8], bundle: &[u8], code: u64, thing: u64) -> DzyAnswer
    ensures { Has rules.now bundle.now code thing result }
{
    dzyunagor::dzy_has(rules, bundle, code, thing)
}

// "q from a to b"
#[unsafe(no_mangle)]
pub extern "C" fn dzy_joins(rules: &[u8], bundle: &[u8], code: u64, from: u64, to: u64) -> DzyAnswer
    ensures { Joins rules.now bundle.now code from to result }
{
    dzyunagor::dzy_joins(rules, bundle, code, from, to)
}

// The kept facts as a bundle, into a lent output, and its length.
#[unsafe(no_mangle)]
pub extern "C" fn dzy_write_kept(rules: &[u8], bundle: &[u8], out: &mut [u8]) -> DzyLength
    ensures { WriteKept rules.now bundle.now out.old result out.new }
{
    dzyunagor::dzy_write_kept(rules, bundle, out)
}

// The facts as records, into a lent row, and how many they are.
#[unsafe(no_mangle)]
pub extern "C" fn dzy_records(rules: &[u8], bundle: &[u8], row: &mut [Record]) -> DzyLength
    ensures { Records rules.now bundle.now row.old result row.new }
{
    dzyunagor::dzy_records(rules, bundle, row)
}

// A row of records as a bundle, into a lent output, and its length.
#[unsafe(no_mangle)]
pub extern "C" fn dzy_write_records(rules: &[u8], row: &[Record], out: &mut [u8]) -> DzyLength
    ensures { WriteRecords rules.now row.now out.old result out.new }
{
    dzyunagor::dzy_write_records(rules, row, out)
}

// Where a reader of an accepted bundle starts; its caller puts it together from the bundle and this place.
#[unsafe(no_mangle)]
pub extern "C" fn dzy_reader_start(rules: &[u8], bundle: &[u8]) -> DzyStart
    ensures { ReaderStart rules.now bundle.now result }
{
    dzyunagor::dzy_reader_start(rules, bundle)
}

// What a reader yields, from any state whatever; it moves on past a fact and by nothing else.
#[unsafe(no_mangle)]
pub extern "C" fn dzy_reader_next<'s, 'a>(reader: &'s mut Reader<'a>) -> DzyYield
    ensures { ReaderNext reader.old result reader.new }
{
    dzyunagor::dzy_reader_next(reader)
}
