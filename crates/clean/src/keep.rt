// The kept facts as bytes: the first walk measures them, the second stores them.
ghost use Rattle.std.specs.Prelude.{◌≡◌, ◌+◌, ◌≤◌, length};
ghost use Rattle.clean.specs.Cleaning.{the_facts, follows};
ghost use Rattle.clean.specs.Keeping.{kept_bytes, measure_of, StoredKept};

use crate::cleaning::Cleaning;
use crate::measure::Measure;
use writer::{fact_size, write_fact};

impl Cleaning<'_> {
    pub fn measure_kept(&self) -> Measure
        ensures { result ≡ measure_of (follows self.now) (the_facts self.now) }
    {
        let mut measure = Measure { count: 0, size: 0 };
        for f in self.facts() {
            if self.is_kept(f) {
                measure.count += 1;
                measure.size += fact_size(f);
            }
        }
        measure
    }

    pub fn store_kept(&self, out: &mut [u8], start: usize) -> usize
        requires { start + length (kept_bytes (follows self.now) (the_facts self.now)) ≤ length out.old }
        ensures { StoredKept (follows self.now) (the_facts self.now) out.old start result out.new }
    {
        let mut place = start;
        for f in self.facts() {
            if self.is_kept(f) {
                place = write_fact(out, place, f);
            }
        }
        place
    }
}
