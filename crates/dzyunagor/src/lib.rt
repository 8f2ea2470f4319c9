// The library's face: every public operation, without any demand on the caller. The crate `dzyunagor_c` exports each of them to C.
#![tactic(auto, unfolding(crate::specs::Promises::CheckRules, crate::specs::Promises::CheckBundle, crate::specs::Promises::Count, crate::specs::Promises::Ask, crate::specs::Promises::Has, crate::specs::Promises::Joins, crate::specs::Promises::ReaderStart))]

ghost use Rattle.dzyunagor.specs.Promises.{CheckRules, CheckBundle, Mark, Count, Ask, Has, Joins, WriteKept, Records, WriteRecords, ReaderStart, ReaderNext};

use records::Record;
use rows::Reader;
use shown::{
    DzyAnswer, DzyAsked, DzyCounts, DzyLength, DzyStart, DzyYield, show_answer, show_asked,
    show_counts, show_length, show_start, show_yield,
};

// How many rules an accepted rule file has.
pub fn dzy_check_rules(rules: &[u8]) -> DzyLength
    ensures { CheckRules rules.now result }
{
    show_length(rules::check_rules(rules).map(|head| head.rules as usize))
}

// How many facts an accepted bundle has, under accepted rules.
pub fn dzy_check_bundle(rules: &[u8], bundle: &[u8]) -> DzyLength
    ensures { CheckBundle rules.now bundle.now result }
{
    show_length(bundle::open_inputs(rules, bundle).map(|inputs| inputs.facts.count as usize))
}

// The marks and partners of a bundle's facts, into lent rows, and their counts.
pub fn dzy_mark(rules: &[u8], bundle: &[u8], marks: &mut [u8], partners: &mut [u16]) -> DzyCounts
    ensures { Mark rules.now bundle.now marks.old partners.old result marks.new partners.new }
{
    show_counts(operations::mark_bundle(rules, bundle, marks, partners))
}

// The counts alone.
pub fn dzy_count(rules: &[u8], bundle: &[u8]) -> DzyCounts
    ensures { Count rules.now bundle.now result }
{
    show_counts(operations::count_bundle(rules, bundle))
}

// One fact's mark and partner.
pub fn dzy_ask(rules: &[u8], bundle: &[u8], fact: u64) -> DzyAsked
    ensures { Ask rules.now bundle.now fact result }
{
    show_asked(operations::ask_fact(rules, bundle, fact))
}

// "B of a"
pub fn dzy_has(rules: &[u8], bundle: &[u8], code: u64, thing: u64) -> DzyAnswer
    ensures { Has rules.now bundle.now code thing result }
{
    show_answer(operations::has_concept(rules, bundle, code, thing))
}

// "q from a to b"
pub fn dzy_joins(rules: &[u8], bundle: &[u8], code: u64, from: u64, to: u64) -> DzyAnswer
    ensures { Joins rules.now bundle.now code from to result }
{
    show_answer(operations::joins_things(rules, bundle, code, from, to))
}

// The kept facts as a bundle, into a lent output, and its length.
pub fn dzy_write_kept(rules: &[u8], bundle: &[u8], out: &mut [u8]) -> DzyLength
    ensures { WriteKept rules.now bundle.now out.old result out.new }
{
    show_length(operations::write_kept(rules, bundle, out))
}

// The facts as records, into a lent row, and how many they are.
pub fn dzy_records(rules: &[u8], bundle: &[u8], row: &mut [Record]) -> DzyLength
    ensures { Records rules.now bundle.now row.old result row.new }
{
    show_length(rows::hand_records(rules, bundle, row))
}

// A row of records as a bundle, into a lent output, and its length.
pub fn dzy_write_records(rules: &[u8], row: &[Record], out: &mut [u8]) -> DzyLength
    ensures { WriteRecords rules.now row.now out.old result out.new }
{
    show_length(rows::write_records(rules, row, out))
}

// Where a reader of an accepted bundle starts; its caller puts it together from the bundle and this place.
pub fn dzy_reader_start(rules: &[u8], bundle: &[u8]) -> DzyStart
    ensures { ReaderStart rules.now bundle.now result }
{
    show_start(records::start(rules, bundle))
}

// What a reader yields, from any state whatever; it moves on past a fact and by nothing else.
pub fn dzy_reader_next<'s, 'a>(reader: &'s mut Reader<'a>) -> DzyYield
    ensures { ReaderNext reader.old result reader.new }
{
    show_yield(rows::next(reader))
}
