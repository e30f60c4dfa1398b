// A line of text, and what is put at its end: a byte, a number, a word. A line holds 96 bytes, and what does not fit is
// dropped without a sign: a caller whose texts are short shows by `fitted_short` that nothing was.
ghost use Rattle.std.specs.Prelude.{◌≡◌, [], ◌∷◌, ◌++◌, ◌+◌, ◌≤◌, length};
ghost use Rattle.octets.specs.Parts.{over};
ghost use Rattle.text.specs.Line.{text_of, fitted, decimal};

use octets::bytes::Bytes;
use octets::parts::put;

// A line of text that is built up by value: its first `len` bytes count. No `String`, since a library has no heap; and any `len`
// is answered, so that whoever makes a line has nothing to show.
pub type Line = Bytes<96>;

pub fn empty() -> Line
    ensures { text_of result ≡ [] }
{
    Bytes {
        bytes: [0u8; 96],
        len: 0,
    }
}

// Where the line is full, or its `len` is out of range, it comes back as it is.
pub fn with_byte(line: Line, b: u8) -> Line
    ensures { text_of result ≡ fitted (text_of line ++ (b ∷ [])) }
{
    let len = line.len;
    if 96 <= len {
        return line;
    }
    let mut bytes = line.bytes;
    bytes[len] = b;
    Bytes {
        bytes,
        len: len + 1,
    }
}

// Calls itself for all digits but the last, since they are to stand before it: at most 20 deep.
pub fn with_number(line: Line, n: u64) -> Line
    ensures { text_of result ≡ fitted (text_of line ++ decimal n) }
{
    let last = b'0' + (n % 10) as u8;
    if n < 10 {
        return with_byte(line, last);
    }
    with_byte(with_number(line, n / 10), last)
}

pub fn with_word(line: Line, word: &[u8]) -> Line
    ensures { text_of result ≡ fitted (text_of line ++ word.now) }
{
    let mut longer = line;
    for byte in word {
        longer = with_byte(longer, *byte);
    }
    longer
}

// How many bytes of a line count.
fn size(line: Line) -> usize
    ensures { result ≡ length (text_of line) }
{
    line.len.min(96)
}

// The line's text is laid over `out` from `at` on. Answers where it ends.
pub fn put_line(out: &mut [u8], at: usize, line: Line) -> usize
    requires { at + length (text_of line) ≤ length out.old }
    ensures { (result ≡ at + length (text_of line)) × (out.new ≡ over out.old at (text_of line)) }
{
    let bytes = line.bytes;
    let n = size(line);
    put(out, at, &bytes[..n]);
    at + n
}
