// Exclusions: the written ones go down both sides along what is included; then each node that leads on to one that excludes itself does so too,
// and these go down both sides as well.
ghost use Rattle.tables.specs.Listed.{nodes_of};
ghost use Rattle.tables.specs.Rows.{row_of};
ghost use Rattle.exclusions.specs.Lowering.{Taken, Widened, Given, Mirrored, Spreads, EmptiedRow, EmptiedBy, Shuts};

use site::Declared;
use tables::{Nodes, Table};

// Row x takes in every row that it leads to.
fn lower_row(t: &mut Table, by: &Table, x: usize)
    ensures { Taken (row_of by.now x) t.old t.new x }
{
    for u in by.row(x) {
        t.join(x, u);
    }
}

// Every row takes in every row that it leads to.
fn widen(t: &mut Table, by: &Table, d: Declared)
    ensures { Widened by.now (nodes_of d.concepts d.roles) t.old t.new }
{
    for x in Nodes::of(d) {
        lower_row(t, by, x);
    }
}

// Whatever row x has takes x in.
fn mirror_row(t: &mut Table, x: usize)
    ensures { Given (row_of t.old x) t.old t.new x }
{
    for u in t.row(x) {
        t.add(u, x);
    }
}

// The table becomes symmetric.
fn mirror(t: &mut Table, d: Declared)
    ensures { Mirrored (nodes_of d.concepts d.roles) t.old t.new }
{
    for y in Nodes::of(d) {
        mirror_row(t, y);
    }
}

// A symmetric table goes down both sides.
fn spread(t: &mut Table, by: &Table, d: Declared)
    ensures { Spreads d.concepts d.roles by.now t.old t.new }
{
    widen(t, by, d);
    mirror(t, d);
    widen(t, by, d);
}

// Each node that leads on to w excludes itself.
fn empty_row(t: &mut Table, on: &Table, d: Declared, w: usize)
    ensures { EmptiedRow on.now (nodes_of d.concepts d.roles) t.old t.new w }
{
    for z in Nodes::of(d) {
        if on.get(z, w) {
            t.add(z, z);
        }
    }
}

// Each node that leads on to one that excludes itself excludes itself.
fn empty(t: &mut Table, on: &Table, d: Declared)
    ensures { EmptiedBy on.now (nodes_of d.concepts d.roles) (nodes_of d.concepts d.roles) t.old t.new }
{
    for w in Nodes::of(d) {
        if t.get(w, w) {
            empty_row(t, on, d, w);
        }
    }
}

// All exclusions, from the written ones in both orders, by what is included and by what leads on.
pub fn exclude(t: &mut Table, by: &Table, on: &Table, d: Declared)
    ensures { Shuts d.concepts d.roles by.now on.now t.old t.new }
{
    spread(t, by, d);
    empty(t, on, d);
    spread(t, by, d);
}
