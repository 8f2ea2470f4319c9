// What document 01 says of a string, computed from the whole string as one number, and not byte after byte as the reader goes.
ghost use Rattle.std.specs.Prelude.{◌≤◌, IfOk};

// A value and how many bytes its string has.
#[derive(Clone, Copy, PartialEq, Eq)]
pub struct Valued {
    pub value: u32,
    pub size: usize,
}

// What is expected of a string: its value, or the number of its refusal in document 01's table.
pub type Wanted = Result<Valued, u32>;

// A string as one number: byte i is digit i to the base 256.
pub fn digit(word: u32, i: usize) -> u8 {
    if i == 0 {
        return (word % 256) as u8;
    }
    if i == 1 {
        return (word / 256 % 256) as u8;
    }
    (word / 65536 % 256) as u8
}

// How many bytes come to the first whose top bit is clear; 4 where none of three has it clear.
fn reach(word: u32) -> usize
    ensures { result ≤ 4 }
{
    if word / 128 % 2 == 0 {
        return 1;
    }
    if word / 32768 % 2 == 0 {
        return 2;
    }
    if word / 8388608 % 2 == 0 {
        return 3;
    }
    4
}

// The groups of seven bits of the first bytes.
fn groups(word: u32, size: usize) -> u32 {
    let one = word % 128;
    if size == 1 {
        return one;
    }
    let two = one + word % 32768 / 256 * 128;
    if size == 2 {
        return two;
    }
    two + word % 8388608 / 65536 * 16384
}

// The fewest groups of seven bits that hold a value.
fn shortest(value: u32) -> usize {
    if value / 128 == 0 {
        return 1;
    }
    if value / 16384 == 0 {
        return 2;
    }
    3
}

// What document 01 says of a string of so many bytes.
pub fn expected(word: u32, length: usize) -> Wanted
    ensures { IfOk result (λ v. v.size ≤ 3) }
{
    let size = reach(word);
    if 3 < size {
        return Err(3);
    }
    if length < size {
        return Err(1);
    }
    let value = groups(word, size);
    if shortest(value) < size {
        return Err(2);
    }
    if 65535 < value {
        return Err(3);
    }
    Ok(Valued { value, size })
}
