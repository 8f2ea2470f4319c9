// One line of the listing, whole, at the start of a lent line; the answer is its length.
ghost use Rattle.std.specs.Prelude.{◌+◌, ◌≤◌, length};
ghost use Rattle.clashes.specs.Judging.{judged_so};
ghost use Rattle.listing.specs.Lines.{counts_line, fact_line, refusal_line, LaidMark, LaidPlace, Line};

use crate::put::{put_decimal, put_named, put_word};
use clashes::{Counts, Judged};
use number::{Refusal, Side};

// The room of a line: none is longer, whatever its numbers of 64 bits are.
pub const ROOM: usize = 128;

// "The words of the listing are fixed byte strings", each with the spaces around it.
const FACTS: [u8; 6] = *b"facts ";

const KEPT_COUNT: [u8; 6] = *b" kept ";

const ALONE_COUNT: [u8; 7] = *b" alone ";

const DISPUTED: [u8; 10] = *b" disputed ";

const KEPT: [u8; 5] = *b" kept";

const ALONE: [u8; 6] = *b" alone";

const REFUSED: [u8; 8] = *b"refused ";

const IN_RULES: [u8; 13] = *b" in rules at ";

const IN_BUNDLE: [u8; 14] = *b" in bundle at ";
// "each line ends with one newline"
const NEWLINE: [u8; 1] = *b"\n";

// "The first line has the counts"
pub fn counts_line(out: &mut [u8; ROOM], counts: Counts) -> usize
    ensures { Line out.old (counts_line counts) result out.new }
{
    let a = put_named(out, 0, &FACTS, counts.facts as u64);
    let b = put_named(out, a, &KEPT_COUNT, counts.kept as u64);
    let c = put_named(out, b, &ALONE_COUNT, counts.alone as u64);
    let d = put_named(out, c, &DISPUTED, counts.disputed as u64);
    put_word(out, d, &NEWLINE)
}

#[tactic(auto, unfolding(crate::specs::Lines::mark_of))]
fn put_mark(out: &mut [u8], at: usize, judged: Judged) -> usize
    requires { at + 30 ≤ length out.old }
    ensures { LaidMark out.old at judged result out.new }
{
    match judged {
        Judged::Kept => put_word(out, at, &KEPT),
        Judged::Alone => put_word(out, at, &ALONE),
        Judged::Disputed(partner) => put_named(out, at, &DISPUTED, partner as u64),
    }
}

// "each other line has the fact's number, its mark, and for a disputed fact its partner"
pub fn fact_line(out: &mut [u8; ROOM], number: usize, mark: u8, partner: u16) -> usize
    ensures { Line out.old (fact_line number (judged_so mark partner)) result out.new }
{
    let judged = Judged::new(mark as u32, partner as u32);
    let a = put_decimal(out, 0, number as u64);
    let b = put_mark(out, a, judged);
    put_word(out, b, &NEWLINE)
}

#[tactic(auto, unfolding(crate::specs::Lines::place_of))]
fn put_place(out: &mut [u8], at: usize, side: Side, place: usize) -> usize
    requires { at + 34 ≤ length out.old }
    ensures { LaidPlace out.old at side place result out.new }
{
    match side {
        Side::Rules => put_named(out, at, &IN_RULES, place as u64),
        Side::Bundle | Side::Call => put_named(out, at, &IN_BUNDLE, place as u64),
    }
}

// "A refusal prints one line, as `refused 8 in bundle at 3`, or `in rules`."
pub fn refusal_line(out: &mut [u8; ROOM], refusal: Refusal) -> usize
    ensures { Line out.old (refusal_line refusal) result out.new }
{
    let a = put_named(out, 0, &REFUSED, u32::from(refusal.fault) as u64);
    let b = put_place(out, a, refusal.side, refusal.place);
    put_word(out, b, &NEWLINE)
}
