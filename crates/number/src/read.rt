// Reading one number at a place of a slice.
#![tactic(auto, using(crate::proofs::Reading::reading))]

ghost use Rattle.std.specs.Prelude.{◌≡◌, ◌<◌};
ghost use Rattle.number.specs.Number.{number_at, judged};

use crate::refusal::{Answer, Fault, Refusal, Side};

// What was read, and the place after it.
#[derive(Clone, Copy)]
pub struct Read<T> {
    pub value: T,
    pub next: usize,
}

// "is at most 65,535"
pub const MOST: u32 = 65535;

// A byte as a wider number.
fn wide(x: u8) -> u32
    ensures { (result ≡ x) × (result < 256) }
{
    x as u32
}

// A whole form's value is held to the largest one allowed.
fn judge(value: u32, next: usize, at: usize, most: u32, side: Side) -> Answer<Read<u32>>
    ensures { result ≡ judged value next at most side }
{
    if value <= most {
        Ok(Read { value, next })
    } else {
        Err(Refusal::new(Fault::Over, side, at))
    }
}

pub fn read_number(s: &[u8], at: usize, most: u32, side: Side) -> Answer<Read<u32>>
    ensures { result ≡ number_at s.now at most side }
{
    if s.len() <= at {
        return Err(Refusal::new(Fault::Cut, side, at));
    }
    let a = wide(s[at]);
    let p = at + 1;
    if a < 128 {
        return judge(a, p, at, most, side);
    }
    if s.len() <= p {
        return Err(Refusal::new(Fault::Cut, side, at));
    }
    let b = wide(s[p]);
    let q = p + 1;
    if b < 128 {
        if b == 0 {
            return Err(Refusal::new(Fault::Long, side, at));
        }
        return judge(a - 128 + 128 * b, q, at, most, side);
    }
    if s.len() <= q {
        return Err(Refusal::new(Fault::Cut, side, at));
    }
    let c = wide(s[q]);
    if c < 128 {
        if c == 0 {
            return Err(Refusal::new(Fault::Long, side, at));
        }
        return judge(a - 128 + 128 * (b - 128) + 16384 * c, q + 1, at, most, side);
    }
    Err(Refusal::new(Fault::Over, side, at))
}
