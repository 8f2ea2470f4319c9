// Whether what the number crate answers, and what it leaves in lent memory, is what is expected.
ghost use Rattle.std.specs.Prelude.{◌≤◌};

use crate::expected::{Valued, Wanted, digit};
use number::{MOST, Refusal, Side};

// What stands around the bytes that are written.
const GUARD: u8 = 165;

// A refusal of this number on this side, both as document 01 writes them, at place 0; a number by itself is in no item. Its four parts are
// compared one by one, and with nothing that the number crate makes.
fn refused(got: Refusal, number: u32, side: u32) -> bool {
    u32::from(got.fault) == number
        && u32::from(got.side) == side
        && got.place == 0
        && got.item.is_none()
}

// A reading is the expected one, of the rules (side 0) from their first byte on.
pub fn read(s: &[u8], wanted: Wanted) -> bool {
    match (number::read_number(s, 0, MOST, Side::Rules), wanted) {
        (Ok(got), Ok(v)) => got.value == v.value && got.next == v.size,
        (Err(got), Err(number)) => refused(got, number, 0),
        _ => false,
    }
}

// A value, written one byte into five: the place after it, its string between what stood around it, and the rest as it was.
pub fn written(word: u32, v: Valued) -> bool
    requires { v.size ≤ 3 }
{
    let mut out = [GUARD; 5];
    let wrote = number::write_number(&mut out, 1, v.value, MOST);
    wrote == Ok(1 + v.size) && holds(&out, word, v.size)
}

// What is expected at a place of the five bytes.
fn slot(word: u32, size: usize, i: usize) -> u8 {
    if i == 0 || size < i {
        return GUARD;
    }
    digit(word, i - 1)
}

fn holds(out: &[u8], word: u32, size: usize) -> bool {
    out.iter()
        .enumerate()
        .all(|(i, b)| *b == slot(word, size, i))
}

// One byte of room too few: refusal 9 of the call (side 2), and nothing written.
pub fn stopped(v: Valued) -> bool
    requires { v.size ≤ 3 }
{
    let mut out = [GUARD; 5];
    match number::write_number(&mut out, 6 - v.size, v.value, MOST) {
        Ok(_) => false,
        Err(got) => refused(got, 9, 2) && holds(&out, 0, 0),
    }
}
