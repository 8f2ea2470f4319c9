// One fact at a place of a bundle.
ghost use Rattle.std.specs.Prelude.{◌≡◌, ℕ, Bool, true, ◌<◌, ◌^◌};
ghost use Rattle.site.specs.Codes.{predicate_declared};
ghost use Rattle.bundle.specs.Bundle.{fact_at};
ghost use Rattle.bundle.specs.Told.{fact_rest};

use number::{Answer, Fault, MOST, Read, Side, read_number};
use site::{Declared, Fact, read_tested};

// The subject, and a role's object, after the predicate.
#[inline(always)]
#[tactic(auto, unfolding(crate::specs::Told::fact_rest))]
fn rest_of_fact(s: &[u8], predicate: u32, at: usize) -> Answer<Read<Fact>>
    ensures { result ≡ fact_rest s.now predicate at }
{
    let first = read_number(s, at, MOST, Side::Bundle);
    let Ok(subject) = first else {
        return Err(first.unwrap_err());
    };
    let concept = Fact::new(predicate, subject.value, 0);
    if concept.of_concept() {
        return Ok(Read {
            value: concept,
            next: subject.next,
        });
    }
    let second = read_number(s, subject.next, MOST, Side::Bundle);
    let Ok(object) = second else {
        return Err(second.unwrap_err());
    };
    Ok(Read {
        value: Fact::new(predicate, subject.value, object.value),
        next: object.next,
    })
}

// The fact at a place, with a test of its predicate.
#[inline(always)]
fn read_fact<F: FnOnce(u32) -> bool>(s: &[u8], at: usize, known: F) -> Answer<Read<Fact>>
    requires { F.IsAlwaysCallable known }
    ensures { (k : ℕ → Bool) → ((n : ℕ) (b : Bool) → n < 2 ^ 32 → F.post known n b → b ≡ k n)
        → result ≡ fact_at k s.now at }
{
    let predicate = read_tested(s, at, Fault::Unknown, Side::Bundle, known)?;
    rest_of_fact(s, predicate.value, predicate.next)
}

// The fact at a place, under rules that declare so many concepts and roles.
pub fn fact_at(s: &[u8], declared: Declared, at: usize) -> Answer<Read<Fact>>
    ensures { result ≡ fact_at (predicate_declared declared.concepts declared.roles) s.now at }
{
    read_fact(s, at, |predicate| declared.has_predicate(predicate))
}

// The fact whose numbers stand at a place, whatever its predicate.
#[inline(always)]
pub fn any_fact_at(s: &[u8], at: usize) -> Answer<Read<Fact>>
    ensures { result ≡ fact_at (λ _. true) s.now at }
{
    read_fact(s, at, |_| true)
}
