// Closing a table: the nodes are gone through one after the other, and each row that has a node takes that node's row in.
ghost use Rattle.tables.specs.Listed.{nodes_of};
ghost use Rattle.tables.specs.Passes.{Passed, Reflected, Turned, Closes};

use crate::bits::Table;
use crate::listed::Nodes;
use site::Declared;

#[tactic(auto, using(crate::proofs::Passes::passes))]
impl Table {
    // Every row that has m takes row m in.
    fn pass(&mut self, d: Declared, m: usize)
        ensures { Passed (nodes_of d.concepts d.roles) self.old self.new m }
    {
        for x in Nodes::of(d) {
            if self.get(x, m) {
                self.join(x, m);
            }
        }
    }

    // Every node has itself in its row.
    fn reflect(&mut self, d: Declared)
        ensures { Reflected (nodes_of d.concepts d.roles) self.old self.new }
    {
        for x in Nodes::of(d) {
            self.add(x, x);
        }
    }

    // Every node is gone through.
    fn turn(&mut self, d: Declared)
        ensures { Turned d.concepts d.roles (nodes_of d.concepts d.roles) self.old self.new }
    {
        for m in Nodes::of(d) {
            self.pass(d, m);
        }
    }

    // The table comes to hold the smallest reflexive and transitive relation with what it holds.
    pub fn close(&mut self, d: Declared)
        ensures { Closes d.concepts d.roles self.old self.new }
    {
        self.reflect(d);
        self.turn(d);
    }
}
