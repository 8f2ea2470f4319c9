// What a rule puts into the tables: its arrows, its written exclusions, its functional role; and step 8's ring of each role.
#![tactic(auto, using(crate::proofs::Adds::adds))]

ghost use Rattle.site.specs.Kinds.Rule.{role_included, role_disjoint, functional};
ghost use Rattle.site.specs.Told.{basic_role_told, rule_told};
ghost use Rattle.steps.specs.Tables.{arrows_of};
ghost use Rattle.follows.specs.Adding.{AddedAll, role_arrows, some_arrows, in_both_orders, exclusions_of, ring, rings, FunctionalAdded};

use site::{BasicRole, Declared, HasNode, Role, Rule};
use tables::Table;

// The arrows of q1 in q2 and of their inverses.
fn add_roles(t: &mut Table, p: BasicRole, q: BasicRole)
    ensures { AddedAll (role_arrows (basic_role_told p) (basic_role_told q)) t.old t.new }
{
    t.add(p.node(), q.node());
    t.add(p.inverse().node(), q.inverse().node());
}

// The arrows of having partners by them.
fn add_somes(t: &mut Table, p: BasicRole, q: BasicRole)
    ensures { AddedAll (some_arrows (basic_role_told p) (basic_role_told q)) t.old t.new }
{
    t.add(p.some_node(), q.some_node());
    t.add(p.inverse().some_node(), q.inverse().some_node());
}

// All arrows of q1 in q2.
fn add_role_arrows(t: &mut Table, p: BasicRole, q: BasicRole)
    ensures { AddedAll (arrows_of (role_included (basic_role_told p) (basic_role_told q))) t.old t.new }
{
    add_roles(t, p, q);
    add_somes(t, p, q);
}

// A rule's arrows.
pub fn add_arrows(t: &mut Table, rule: Rule)
    ensures { AddedAll (arrows_of (rule_told rule)) t.old t.new }
{
    match rule {
        Rule::Included(b, c) => t.add(b.node(), c.node()),
        Rule::RoleIncluded(p, q) => add_role_arrows(t, p, q),
        Rule::Disjoint(_, _) => {}
        Rule::RoleDisjoint(_, _) => {}
        Rule::Functional(_) => {}
    }
}

// The written exclusion of two nodes, in both orders.
fn add_apart<N: HasNode>(t: &mut Table, x: N, y: N)
    ensures { AddedAll (in_both_orders (record { left = N.node_told x; right = N.node_told y })) t.old t.new }
{
    t.add(x.node(), y.node());
    t.add(y.node(), x.node());
}

// That of two basic roles, and of their inverses.
fn add_role_disjoint(t: &mut Table, p: BasicRole, q: BasicRole)
    ensures { AddedAll (exclusions_of (role_disjoint (basic_role_told p) (basic_role_told q))) t.old t.new }
{
    add_apart(t, p, q);
    add_apart(t, p.inverse(), q.inverse());
}

// A rule's written exclusions.
pub fn add_exclusions(t: &mut Table, rule: Rule)
    ensures { AddedAll (exclusions_of (rule_told rule)) t.old t.new }
{
    match rule {
        Rule::Included(_, _) => {}
        Rule::RoleIncluded(_, _) => {}
        Rule::Disjoint(b, c) => add_apart(t, b, c),
        Rule::RoleDisjoint(p, q) => add_role_disjoint(t, p, q),
        Rule::Functional(_) => {}
    }
}

// The bits of the functional roles, with one more.
fn functional_bit(mask: u64, q: BasicRole) -> u64
    ensures { FunctionalAdded (functional (basic_role_told q)) mask result }
{
    let code = q.code();
    if code >= BasicRole::COUNT as usize {
        return mask;
    }
    mask | (1u64 << code)
}

// The bits of the functional roles, with a rule's.
pub fn add_functional(mask: u64, rule: Rule) -> u64
    ensures { FunctionalAdded (rule_told rule) mask result }
{
    match rule {
        Rule::Included(_, _) => mask,
        Rule::RoleIncluded(_, _) => mask,
        Rule::Disjoint(_, _) => mask,
        Rule::RoleDisjoint(_, _) => mask,
        Rule::Functional(q) => functional_bit(mask, q),
    }
}

// The ring of a role.
fn add_ring(t: &mut Table, j: u32)
    ensures { AddedAll (ring j) t.old t.new }
{
    let role = Role::new(j);
    let p = BasicRole::Forward(role);
    let q = BasicRole::Inverse(role);
    let forward = p.node();
    let inverse = q.node();
    let some_forward = p.some_node();
    let some_inverse = q.some_node();
    t.add(forward, some_forward);
    t.add(some_forward, some_inverse);
    t.add(some_inverse, inverse);
    t.add(inverse, forward);
}

// The rings of all declared roles.
pub fn add_rings(t: &mut Table, d: Declared)
    ensures { AddedAll (rings d.roles) t.old t.new }
{
    for j in 0..d.roles {
        add_ring(t, j);
    }
}
