// Reading one rule at a place.
ghost use Rattle.std.specs.Prelude.{◌≡◌};
ghost use Rattle.site.specs.Items.{code_at};
ghost use Rattle.site.specs.Told.{kind_number};
ghost use Rattle.rule.specs.OneRule.{code_declared, kind_at, rule_at};
ghost use Rattle.rule.specs.Told.{kind_read, rule_read};

use crate::head::Head;
use number::{Answer, Fault, MOST, Read, Refusal, Side, read_number};
use site::{Kind, Rule, read_tested};

// "unknown rule kind"
fn read_kind(s: &[u8], at: usize) -> Answer<Read<Kind>>
    ensures { kind_read result ≡ kind_at s.now at }
{
    let read = read_number(s, at, MOST, Side::Rules);
    let Ok(number) = read else {
        return Err(read.unwrap_err());
    };
    match Kind::try_from(number.value) {
        Ok(kind) => Ok(Read {
            value: kind,
            next: number.next,
        }),
        Err(_) => Err(Refusal::new(Fault::Kind, Side::Rules, at)),
    }
}

// "concept or role not declared"
fn read_code(s: &[u8], head: Head, kind: Kind, at: usize) -> Answer<Read<u32>>
    ensures { result ≡ code_at s.now at (code_declared head (kind_number kind)) Side.Rules }
{
    read_tested(
        s,
        at,
        Fault::Unknown,
        Side::Rules,
        |code| head.has_code(kind, code),
    )
}

// "A rule is its kind, then its codes". Each walk over rules asks for another part of what is read: inlined, it reads no more than that.
#[inline(always)]
#[tactic(auto, unfolding(crate::specs::OneRule::rule_at))]
pub fn rule_at(s: &[u8], head: Head, at: usize) -> Answer<Read<Rule>>
    ensures { rule_read result ≡ rule_at head s.now at }
{
    let first = read_kind(s, at);
    let Ok(kind) = first else {
        return Err(first.unwrap_err());
    };
    let second = read_code(s, head, kind.value, kind.next);
    let Ok(x) = second else {
        return Err(second.unwrap_err());
    };
    if kind.value == Kind::Functional {
        return Ok(Read {
            value: Rule::of_kind(kind.value, x.value, 0),
            next: x.next,
        });
    }
    let third = read_code(s, head, kind.value, x.next);
    let Ok(y) = third else {
        return Err(third.unwrap_err());
    };
    Ok(Read {
        value: Rule::of_kind(kind.value, x.value, y.value),
        next: y.next,
    })
}
