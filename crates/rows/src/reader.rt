// A reader that remembers the bundle and its next byte; it leaves the work to `step_at`.
ghost use Rattle.rows.specs.Stepping.{Steps};

use number::Answer;
use records::step_at;
use site::Fact;

// "A reader that remembers the bundle and its next byte"
#[repr(C)]
#[derive(Drop)]
pub struct Reader<'a> {
    pub src: &'a [u8],
    pub at: usize,
}

// It "yields one fact at a time": the fact, or none when it is done.
pub fn next<'s, 'a>(reader: &'s mut Reader<'a>) -> Answer<Option<Fact>>
    ensures { Steps reader.old result reader.new }
{
    let step = step_at(reader.src, reader.at);
    reader.at = step.next;
    step.yields
}
