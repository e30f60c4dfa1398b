// The lines of a report in words, and of a refusal.
ghost use Rattle.std.specs.Prelude.{◌≡◌, ◌≤◌, length};
ghost use Rattle.text.specs.Line.{text_of};
ghost use Rattle.salvage_report.specs.Report.{entry_length};
ghost use Rattle.salvage_report.specs.Kinds.{byte_of};
ghost use Rattle.salvage_text.specs.Told.{field_word, slot_line, field_line, entry_line, refused_line};

use octets::numbers::get16;
use salvage_report::entry::get48;
use salvage_report::kind::Kind;
use text::line::{Line, empty, with_byte, with_number, with_word};

fn slot_line(place: u16) -> Line
    ensures { text_of result ≡ slot_line place }
{
    let named = with_number(with_word(empty(), b"slot "), place as u64);
    with_word(named, b" not kept\n")
}

// A header field by its name.
fn field_word(kind: Kind) -> Line
    ensures { text_of result ≡ field_word (byte_of kind) }
{
    match kind {
        Kind::Slots => with_word(empty(), b"slots "),
        Kind::Held => with_word(empty(), b"held "),
        Kind::Offset => with_word(empty(), b"offset "),
        Kind::Next => with_word(empty(), b"next "),
        _ => with_word(empty(), b"rest "),
    }
}

fn field_line(kind: Kind, old: u64, new: u64) -> Line
    ensures { text_of result ≡ field_line (byte_of kind) old new }
{
    let was = with_number(field_word(kind), old);
    with_byte(with_number(with_word(was, b" now "), new), b'\n')
}

// The line of an entry: at most 53 bytes, a word of 7, two numbers of at most 20 digits, ` now ` and the line's end. A first byte
// that stands for no kind is told as that of the last field.
pub fn entry_line(e: &[u8]) -> Line
    requires { length e.now ≡ entry_length }
    ensures { (text_of result ≡ entry_line e.now) × (length (entry_line e.now) ≤ 53) }
{
    match Kind::try_from(e[0]).unwrap_or(Kind::Rest) {
        Kind::Slot => slot_line(get16(e, 2)),
        field => field_line(field, get48(e, 4), get48(e, 10)),
    }
}

pub fn refused_line(number: u8) -> Line
    ensures { (text_of result ≡ refused_line number) × (length (refused_line number) ≤ 29) }
{
    with_byte(
        with_number(with_word(empty(), b"refused "), number as u64),
        b'\n',
    )
}
