// Words and numbers laid over a buffer one after the other. Each answers where it ends.
ghost use Rattle.std.specs.Prelude.{◌≡◌, ◌+◌, ◌≤◌, length};
ghost use Rattle.text.specs.Laid.{filled, laid};
ghost use Rattle.text.specs.Line.{decimal};

use crate::line::{empty, put_line, with_number};
use octets::parts::put;

pub fn put_word(out: &mut [u8], at: usize, word: &[u8]) -> usize
    requires { at + length word.now ≤ length out.old }
    ensures { filled result out.new ≡ laid out.old at word.now }
{
    put(out, at, word);
    at + word.len()
}

// A number of 64 bits has at most 20 digits.
pub fn put_number(out: &mut [u8], at: usize, n: u64) -> usize
    requires { at + 20 ≤ length out.old }
    ensures { filled result out.new ≡ laid out.old at (decimal n) }
{
    put_line(out, at, with_number(empty(), n))
}
