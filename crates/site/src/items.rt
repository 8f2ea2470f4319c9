// Reading a number that has to pass a test and finding the end: what rule files and bundles have in common.
ghost use Rattle.std.specs.Prelude.{◌≡◌, ℕ, Bool, ◌<◌, ◌^◌};
ghost use Rattle.site.specs.Items.{tested_at, at_most, end_at};

use number::{Answer, Fault, MOST, Read, Refusal, Side, read_number};

// A number with a test of its own; what fails it is refused by this fault, at its first byte.
pub fn read_tested<F: FnOnce(u32) -> bool>(
    s: &[u8],
    at: usize,
    fault: Fault,
    side: Side,
    test: F,
) -> Answer<Read<u32>>
    requires { F.IsAlwaysCallable test }
    ensures { (t : ℕ → Bool) → ((n : ℕ) (b : Bool) → n < 2 ^ 32 → F.post test n b → b ≡ t n)
        → result ≡ tested_at s.now at t fault side }
{
    let number = read_number(s, at, MOST, side);
    let Ok(read) = number else {
        return Err(number.unwrap_err());
    };
    if test(read.value) {
        Ok(read)
    } else {
        Err(Refusal::new(fault, side, at))
    }
}

// A number that may not be over a limit of its own.
#[tactic(auto, unfolding(crate::specs::Items::at_most))]
pub fn read_within(s: &[u8], at: usize, limit: u32, fault: Fault, side: Side) -> Answer<Read<u32>>
    ensures { result ≡ tested_at s.now at (at_most limit) fault side }
{
    read_tested(s, at, fault, side, |value| value <= limit)
}

// No byte may stand after the last item.
#[tactic(auto, unfolding(crate::specs::Items::end_at))]
pub fn read_end(s: &[u8], at: usize, side: Side) -> Answer<usize>
    ensures { result ≡ end_at s.now at side }
{
    if at < s.len() {
        return Err(Refusal::new(Fault::After, side, at));
    }
    Ok(at)
}
