// Reading a whole rule file: every rule, then the end, then the functional roles.
ghost use Rattle.std.specs.Prelude.{◌≡◌, ◌≤◌};
ghost use Rattle.site.specs.Limits.{most_roles};
ghost use Rattle.site.specs.Told.{rule_told};
ghost use Rattle.rules.specs.RuleFile.{rules_from, rules_in, next_unbroken, unbroken, check_rules};
ghost use Rattle.rules.specs.Told.{Rights, with_right, broken_by};

use crate::walk::RulesOf;
use number::{Answer, Fault, Refusal, Side, about};
use rule::{Head, read_head, rule_at};
use site::{Role, Rule, read_end};

// For each role, whether it stands on the right of a kind 2 rule.
type Right = [bool; Role::COUNT as usize];

// All rules that a head promises: the place after them.
fn rules_end(s: &[u8], head: Head) -> Answer<usize>
    ensures { result ≡ rules_from head s.now head.rules head.start }
{
    let mut at = head.start;
    for i in 0..head.rules {
        at = about(rule_at(s, head, at), i)?.next;
    }
    Ok(at)
}

// The table, with the role on the right of one rule more.
fn mark_right(right: &mut Right, rule: Rule)
    ensures { right.new ≡ with_right (rule_told rule) right.old }
{
    if let Rule::RoleIncluded(_, q) = rule {
        let role = q.role().number;
        if role < Role::COUNT {
            right[role as usize] = true;
        }
    }
}

fn right_roles(s: &[u8], head: Head) -> Right
    ensures { Rights (rules_in head s.now head.rules head.start) result }
{
    let mut right = [false; Role::COUNT as usize];
    for rule in RulesOf::new(s, head) {
        mark_right(&mut right, rule);
    }
    right
}

// Is it a functional rule whose role stands on the right?
fn is_broken(right: &Right, rule: Rule) -> bool
    ensures { result ≡ broken_by right.now (rule_told rule) }
{
    let Rule::Functional(q) = rule else {
        return false;
    };
    let role = q.role().number;
    role < Role::COUNT && right[role as usize]
}

// The place after a rule that is not broken.
fn next_unbroken(s: &[u8], head: Head, right: &Right, at: usize) -> Answer<usize>
    requires roles { head.roles ≤ most_roles }
    requires rights { Rights (rules_in head s.now head.rules head.start) right.now }
    ensures { result ≡ next_unbroken head s.now (rules_in head s.now head.rules head.start) at }
{
    let rule = rule_at(s, head, at)?;
    if is_broken(right, rule.value) {
        return Err(Refusal::new(Fault::Broken, Side::Rules, at));
    }
    Ok(rule.next)
}

// "the kind of the first functional rule so broken"
fn check_functional(s: &[u8], head: Head) -> Answer<usize>
    requires { head.roles ≤ most_roles }
    ensures { result ≡ unbroken head s.now (rules_in head s.now head.rules head.start) head.rules head.start }
{
    let right = right_roles(s, head);
    let mut at = head.start;
    for i in 0..head.rules {
        at = about(next_unbroken(s, head, &right, at), i)?;
    }
    Ok(at)
}

#[tactic(auto, unfolding(crate::specs::RuleFile::check_rules, crate::specs::RuleFile::after_rules))]
pub fn check_rules(s: &[u8]) -> Answer<Head>
    ensures { result ≡ check_rules s.now }
{
    let head = read_head(s)?;
    let end = rules_end(s, head)?;
    read_end(s, end, Side::Rules)?;
    check_functional(s, head)?;
    Ok(head)
}
