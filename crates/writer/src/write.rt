// Writing records as a bundle: they are judged, then measured, then stored.
ghost use Rattle.std.specs.Prelude.{◌≡◌, ◌≤◌, length, map};
ghost use Rattle.site.specs.Limits.{most_facts};
ghost use Rattle.bundle.specs.Bundle.{bundle_of};
ghost use Rattle.writer.specs.Records.{within};
ghost use Rattle.writer.specs.Stored.{StoresFacts, StoredFacts, WritesFacts};

use crate::judge::judge_records;
use crate::record::HasFact;
use crate::store::{fact_size, put_number, write_fact};
use number::{Answer, Fault, Refusal, size_of_number};
use rule::Head;
use site::Fact;

// How many bytes the bundle of some records has.
fn bundle_size<R: HasFact>(records: &[R]) -> usize
    requires { length records.now ≤ most_facts }
    ensures { result ≡ length (bundle_of (map R.fact_of records.now)) }
{
    let mut size = size_of_number(records.len() as u32);
    for record in records {
        size += fact_size(record.fact());
    }
    size
}

// The bundle's bytes, stored where there is room for them: how many they are.
fn store_facts<R: HasFact>(records: &[R], out: &mut [u8]) -> usize
    requires { StoresFacts out.old (map R.fact_of records.now) }
    ensures { StoredFacts out.old (map R.fact_of records.now) result out.new }
{
    let mut at = put_number(out, 0, records.len() as u32);
    for record in records {
        let fact = record.fact();
        at = write_fact(out, at, fact);
    }
    at
}

// "Records: count (4), then each record"; then room, and nothing is written before all that is judged.
pub fn write_facts<R: HasFact>(head: Head, records: &[R], out: &mut [u8]) -> Answer<usize>
    ensures { WritesFacts (within head) (map R.fact_of records.now) out.old result out.new }
{
    if Fact::MOST < records.len() {
        return Err(Refusal::of_call(Fault::Count));
    }
    judge_records(head, records)?;
    let size = bundle_size(records);
    if out.len() < size {
        return Err(Refusal::of_call(Fault::Room));
    }
    Ok(store_facts(records, out))
}
