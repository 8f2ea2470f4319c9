// Writing a row of records as a bundle.
ghost use Rattle.records.specs.Rows.{WritesRow};

use number::Answer;
use records::Record;
use rules::check_rules;
use writer::write_facts;

// "and hands such a row back to be written".
pub fn write_records(rules: &[u8], row: &[Record], out: &mut [u8]) -> Answer<usize>
    ensures { WritesRow rules.now row.now out.old result out.new }
{
    let head = check_rules(rules)?;
    write_facts(head, row, out)
}
