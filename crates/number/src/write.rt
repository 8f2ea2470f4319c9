// Writing one number at a place of lent memory.
#![tactic(auto, using(crate::proofs::Writing::writing))]

ghost use Rattle.std.specs.Prelude.{◌≡◌, length};
ghost use Rattle.number.specs.Number.{bytes_of};
ghost use Rattle.number.specs.Told.{Writes, Stores, Stored};

use crate::refusal::{Answer, Fault, Refusal};

// The largest value that three groups of seven bits hold.
pub const THREE_BYTES: u32 = 2097151;

// How many bytes a number's form has.
pub fn size_of_number(value: u32) -> usize
    ensures { result ≡ length (bytes_of value) }
{
    if value < 128 {
        return 1;
    }
    if value < 16384 {
        return 2;
    }
    3
}

// The bytes of a number that has a form, stored where there is room for them.
fn store(out: &mut [u8], at: usize, value: u32) -> usize
    requires { Stores out.old at value }
    ensures { Stored out.old at value result out.new }
{
    if value < 128 {
        out[at] = value as u8;
        return at + 1;
    }
    out[at] = (value % 128 + 128) as u8;
    let p = at + 1;
    if value < 16384 {
        out[p] = (value / 128) as u8;
        return p + 1;
    }
    out[p] = (value / 128 % 128 + 128) as u8;
    let q = p + 1;
    out[q] = (value / 16384) as u8;
    q + 1
}

pub fn write_number(out: &mut [u8], at: usize, value: u32, most: u32) -> Answer<usize>
    ensures { Writes out.old at value most result out.new }
{
    if most < value {
        return Err(Refusal::of_call(Fault::Over));
    }
    if THREE_BYTES < value {
        return Err(Refusal::of_call(Fault::Over));
    }
    if out.len() < at {
        return Err(Refusal::of_call(Fault::Room));
    }
    if out.len() - at < size_of_number(value) {
        return Err(Refusal::of_call(Fault::Room));
    }
    Ok(store(out, at, value))
}
