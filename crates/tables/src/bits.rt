// Tables of bits: a row of three words for each node, and in it a bit for each node.
ghost use Rattle.std.specs.Prelude.{◌≡◌, length, replicate};
ghost use Rattle.tables.specs.Bits.{has, Added, Joined};
ghost use Rattle.tables.specs.Rows.{row_of};

use crate::row::Row;
use site::{BasicConcept, BasicRole};
use std::marker::Model;

// The nodes: 128 basic concepts and 64 basic roles.
pub const NODES: usize = BasicConcept::COUNT as usize + BasicRole::COUNT as usize;
// The words of a row, and the bits of a word.
pub const WORDS: usize = 3;

pub const BITS: usize = 64;

// A table is seen as the list of its words.
#[derive(Clone, Copy)]
pub struct Table {
    words: [u64; NODES * WORDS],
}

impl Model for Table {
    ghost use Rattle.std.specs.Prelude.{ℕ, List};

    ghost Value = { List ℕ };

    ghost view = { λ t. t.words };

    ghost inverse = { λ words. record { words = words } };
}

#[tactic(auto, using(crate::proofs::Words::words, crate::proofs::Rows::rows))]
impl Table {
    // A table with nothing in it.
    pub fn blank() -> Self
        ensures { result ≡ replicate 576 0 }
    {
        Table {
            words: [0; NODES * WORDS],
        }
    }

    // A table is 576 words, whatever was put into it. This does nothing but say so to a caller.
    pub fn whole(&self)
        ensures { length self.now ≡ 576 }
    {
        let _words = self.words;
    }

    // Has the table y in row x?
    pub fn get(&self, x: usize, y: usize) -> bool
        ensures { result ≡ has self.now x y }
    {
        if x >= NODES || y >= NODES {
            return false;
        }
        let word = self.words[x * WORDS + y / BITS];
        (word >> (y % BITS)) % 2 == 1
    }

    // Row x by itself.
    pub fn row(&self, x: usize) -> Row
        ensures { result ≡ row_of self.now x }
    {
        if x >= NODES {
            return Row { words: [0; WORDS] };
        }
        let at = x * WORDS;
        Row {
            words: [self.words[at], self.words[at + 1], self.words[at + 2]],
        }
    }

    // Row x takes y in.
    pub fn add(&mut self, x: usize, y: usize)
        ensures { Added self.old self.new x y }
    {
        if x < NODES && y < NODES {
            self.words[x * WORDS + y / BITS] |= 1 << (y % BITS);
        }
    }

    // Row x takes row y in.
    pub fn join(&mut self, x: usize, y: usize)
        ensures { Joined self.old self.new x y }
    {
        if x < NODES && y < NODES {
            for w in 0..WORDS {
                self.words[x * WORDS + w] |= self.words[y * WORDS + w];
            }
        }
    }
}
