// Writing the kept facts.
ghost use Rattle.std.specs.Prelude.{◌≡◌, ◌++◌};
ghost use Rattle.std.proofs.lemmas.List.Edits.{sets};
ghost use Rattle.number.specs.Number.{bytes_of};
ghost use Rattle.clean.specs.Cleaning.{the_facts, follows};
ghost use Rattle.clean.specs.Keeping.{kept_bytes};
ghost use Rattle.operations.specs.Promises.{WritesKept, StoresBundle};

use crate::files::Files;
use clean::Cleaning;
use follows::Tables;
use number::{Answer, Fault, Refusal, size_of_number};
use writer::put_number;

// The count of the kept facts, then their bytes.
fn store_bundle(cleaning: &Cleaning, count: u32, out: &mut [u8])
    requires { StoresBundle (follows cleaning.now) cleaning.now.bundle.now cleaning.now.facts count out.old }
    ensures { out.new ≡ sets out.old 0 (bytes_of count ++ kept_bytes (follows cleaning.now) (the_facts cleaning.now)) }
{
    let place = put_number(out, 0, count);
    cleaning.store_kept(out, place);
}

impl Files<'_> {
    fn write_kept(&self, out: &mut [u8]) -> Answer<usize>
        ensures { WritesKept self.now.rules.now self.now.bundle.now out.old result out.new }
    {
        let mut tables = Tables::empty();
        tables.fill(self.rules, self.inputs.head);
        let cleaning = self.cleaning(&tables);
        let measure = cleaning.measure_kept();
        let length = size_of_number(measure.count) + measure.size;
        if out.len() < length {
            return Err(Refusal::of_call(Fault::Room));
        }
        store_bundle(&cleaning, measure.count, out);
        Ok(length)
    }
}

// "Writing the kept facts gives their bundle and its length; it refuses 9 exactly if the lent output is shorter."
pub fn write_kept(rules: &[u8], bundle: &[u8], out: &mut [u8]) -> Answer<usize>
    ensures { WritesKept rules.now bundle.now out.old result out.new }
{
    Files::open(rules, bundle)?.write_kept(out)
}
