// Words and decimal numbers put into a lent line, each at a place, each answering the place after it.
#![tactic(auto, using(crate::proofs::OfPutting::putting))]

ghost use Rattle.std.specs.Prelude.{◌+◌, ◌≤◌, length};
ghost use Rattle.listing.specs.Put.{Laid, LaidNumber, LaidNamed};

// The most digits that a number of 64 bits has are 20.
pub fn put_decimal(out: &mut [u8], at: usize, n: u64) -> usize
    requires { at + 20 ≤ length out.old }
    ensures { LaidNumber out.old at n result out.new }
{
    if n < 10 {
        out[at] = b'0' + n as u8;
        return at + 1;
    }
    let p = put_decimal(out, at, n / 10);
    out[p] = b'0' + (n % 10) as u8;
    p + 1
}

pub fn put_word(out: &mut [u8], at: usize, word: &[u8]) -> usize
    requires { at + length word.now ≤ length out.old }
    ensures { Laid out.old at word.now result out.new }
{
    let end = at + word.len();
    out[at..end].copy_from_slice(word);
    end
}

// A word, and the number that it names.
pub fn put_named(out: &mut [u8], at: usize, word: &[u8], n: u64) -> usize
    requires { at + length word.now + 20 ≤ length out.old }
    ensures { LaidNamed out.old at word.now n result out.new }
{
    let p = put_word(out, at, word);
    put_decimal(out, p, n)
}
