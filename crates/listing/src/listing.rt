// Which line of the listing is which: the counts and then a line a fact, or the one line of a refusal.
ghost use Rattle.std.specs.Prelude.{◌≡◌};
ghost use Rattle.listing.specs.Lines.{Line};
ghost use Rattle.listing.specs.Listing.{lines_of, line_at, Within};

use crate::lines::{ROOM, counts_line, fact_line, refusal_line};
use clashes::Counts;
use number::Answer;

pub fn count_lines(counted: Answer<Counts>) -> usize
    ensures { result ≡ lines_of counted }
{
    match counted {
        Ok(c) => c.facts as usize + 1,
        Err(_) => 1,
    }
}

// The line of this number, at the start of a lent line; the answer is its length.
#[tactic(auto, unfolding(crate::specs::Listing::line_at))]
pub fn write_line(
    out: &mut [u8; ROOM],
    counted: Answer<Counts>,
    marks: &[u8],
    partners: &[u16],
    number: usize,
) -> usize
    requires { Within marks.now partners.now number }
    ensures { Line out.old (line_at counted marks.now partners.now number) result out.new }
{
    match counted {
        Ok(c) => {
            if number == 0 {
                return counts_line(out, c);
            }
            let fact = number - 1;
            fact_line(out, fact, marks[fact], partners[fact])
        }
        Err(r) => refusal_line(out, r),
    }
}
