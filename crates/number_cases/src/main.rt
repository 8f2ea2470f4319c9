// Runs the number crate over document 01's seven cases, over every string of no, one and two bytes and over strings of three bytes at the
// boundaries, reading each and writing each accepted value back, and prints how often it agrees with what is expected.
#![tactic(auto)]

ghost use Rattle.std.specs.Prelude.{◌≤◌};

mod compare;
mod expected;

use compare::{read, stopped, written};
use expected::{Valued, Wanted, digit, expected};
use std::io;

// Document 01's cases, by their order there.
fn case(i: u32) -> bool {
    match i {
        0 => read(
            b"\x7F",
            Ok(Valued {
                value: 127,
                size: 1,
            }),
        ),
        1 => read(
            b"\x80\x01",
            Ok(Valued {
                value: 128,
                size: 2,
            }),
        ),
        2 => read(
            b"\xFF\xFF\x03",
            Ok(Valued {
                value: 65535,
                size: 3,
            }),
        ),
        3 => read(b"\x80\x80\x04", Err(3)),
        4 => read(b"\x80\x00", Err(2)),
        5 => read(b"\x80\x80\x80", Err(3)),
        _ => read(b"\x80", Err(1)),
    }
}

// A byte at a boundary.
fn edge(i: u32) -> u32
    ensures { result ≤ 255 }
{
    match i {
        0 => 0,
        1 => 1,
        2 => 127,
        3 => 128,
        4 => 129,
        5 => 254,
        _ => 255,
    }
}

// The string number i of so many bytes: each there is, and of three bytes those whose first two are at a boundary.
fn string(length: usize, i: u32) -> u32 {
    if length < 3 {
        return i;
    }
    edge(i / 1792) + 256 * edge(i / 256 % 7) + 65536 * (i % 256)
}

// Reading the string number i of at most three bytes.
fn read_string(length: usize, i: u32) -> bool {
    let word = string(length, i);
    let s = [digit(word, 0), digit(word, 1), digit(word, 2)];
    read(s.get(..length).unwrap_or(&s), expected(word, length))
}

// Writing the value of such a string, if it has one.
fn write_string(length: usize, i: u32) -> Option<bool> {
    let word = string(length, i);
    let v = expected(word, length).ok()?;
    Some(written(word, v))
}

// Writing it where there is no room.
fn stop_string(length: usize, i: u32) -> Option<bool> {
    let v = expected(string(length, i), length).ok()?;
    Some(stopped(v))
}

// One line of what is printed: how often a test of the first numbers agrees, and how often it does not, where it says anything.
fn sweep<F: Fn(u32) -> Option<bool>>(
    rt: &impl Print,
    name: &str,
    count: u32,
    test: F,
) -> io::Result<()>
    requires { F.IsAlwaysCallable test }
{
    let mut agree: u32 = 0;
    let mut differ: u32 = 0;
    for i in 0..count {
        match test(i) {
            Some(true) => agree += 1,
            Some(false) => differ += 1,
            None => {}
        }
    }
    println!(rt; "{name}: {agree} agree, {differ} differ")
}

fn main(rt: HostRuntime) -> io::Result<()> {
    sweep(&rt, "cases", 7, |i| Some(case(i)))?;
    sweep(&rt, "read no byte", 1, |i| Some(read_string(0, i)))?;
    sweep(&rt, "read one byte", 256, |i| Some(read_string(1, i)))?;
    sweep(&rt, "read two bytes", 65536, |i| Some(read_string(2, i)))?;
    sweep(&rt, "read three bytes", 12544, |i| Some(read_string(3, i)))?;
    sweep(&rt, "write one byte", 256, |i| write_string(1, i))?;
    sweep(&rt, "write two bytes", 65536, |i| write_string(2, i))?;
    sweep(&rt, "write three bytes", 12544, |i| write_string(3, i))?;
    sweep(&rt, "no room for one byte", 256, |i| stop_string(1, i))?;
    sweep(&rt, "no room for two bytes", 65536, |i| stop_string(2, i))?;
    sweep(&rt, "no room for three bytes", 12544, |i| stop_string(3, i))
}
