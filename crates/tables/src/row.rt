// One row of a table, by itself.
ghost use Rattle.std.specs.Iterator.{YieldsFirst, item_count};

use crate::bits::{BITS, WORDS};
use std::marker::Model;

// The nodes that are left in it, and seen as the list of them.
#[derive(Drop)]
pub struct Row {
    pub(crate) words: [u64; WORDS],
}

impl Model for Row {
    ghost use Rattle.std.specs.Prelude.{ℕ, List};
    ghost use Rattle.tables.specs.Rows.{bits_in};

    ghost Value = { List ℕ };

    ghost view = { λ r. bits_in r.words };
}

impl Iterator for Row {
    type Item = usize;

    ghost next_gives = { YieldsFirst (λ rest. rest) };

    ghost remaining = { item_count (λ rest. rest) };

    // The lowest bit that is left.
    #[tactic(auto, using(crate::proofs::Rows::rows))]
    fn next(&mut self) -> Option<usize> {
        for w in 0..WORDS {
            let word = self.words[w];
            if word != 0 {
                let bit = word.trailing_zeros();
                self.words[w] = word & !(1 << bit);
                return Some(w * BITS + bit as usize);
            }
        }
        None
    }
}
