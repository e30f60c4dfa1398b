// The page that is printed: the title and a line for each tag.
ghost use Rattle.std.specs.Prelude.{◌≡◌, [], ◌++◌, ◌+◌, ◌≤◌};
ghost use Rattle.text.specs.Line.{text_of};
ghost use Rattle.day_sheet.specs.Sheet.{title_line};
ghost use Rattle.day_evening.specs.Fetch.{fetched_of};
ghost use Rattle.loading_day.specs.Page.{page_text, line_of, lines_of, evening_of, sheet_of};

use day_evening::fetch::{Side, fetched, ruling, sight};
use day_play::play::{Happening, Ramp, played};
use day_play::reader::{Note, Reader};
use day_sheet::sheet::{tag_line, title_line};
use octets::bytes::Bytes;
use text::line::{Line, put_line};

// Nine lines of at most 96 bytes; its first `len` bytes count. On the heap it could fail to be made, and no sheet fails.
pub type Page = Bytes<864>;

fn blank() -> Page
    ensures { (page_text result ≡ []) × (result.len ≡ 0) }
{
    Bytes {
        bytes: [0u8; 864],
        len: 0,
    }
}

fn with_line(page: Page, line: Line) -> Page
    requires { page.len + 96 ≤ 864 }
    ensures { (page_text result ≡ page_text page ++ text_of line) × (result.len ≤ page.len + 96) }
{
    let at = page.len;
    let mut bytes = page.bytes;
    let len = put_line(&mut bytes, at, line);
    Bytes { len, bytes }
}

// One reader in the evening: its notes by the tags' places, its clock's Base_Time, and its table as the tablet fetched it.
#[derive(Clone, Copy)]
pub struct Collected {
    pub notes: [Option<Note>; 8],
    pub base: u32,
    pub table: [u8; 528],
}

// A tag's line, from both sides of the ramp.
fn line_of(tag: u16, left: Side, right: Side) -> Line
    ensures { text_of result ≡ line_of tag left.note left.base left.table right.note right.base right.table }
{
    let first = sight(left.note, left.table);
    let second = sight(right.note, right.table);
    let said = ruling(left, right);
    tag_line(tag, first, second, said)
}

// The title and the lines.
fn page_of(tags: [u16; 8], left: Collected, right: Collected) -> Page
    ensures { (page_text result ≡ title_line ++ lines_of tags left.notes left.base left.table right.notes right.base right.table) × (result.len ≤ 864) }
{
    let mut page = with_line(blank(), title_line());
    for k in 0..8 {
        let left_side = Side {
            note: left.notes[k],
            base: left.base,
            table: left.table,
        };
        let right_side = Side {
            note: right.notes[k],
            base: right.base,
            table: right.table,
        };
        page = with_line(page, line_of(tags[k], left_side, right_side));
    }
    page
}

// A reader in the evening, when the tablet fetches its log.
fn collect(reader: Reader) -> Collected
    ensures notes { result.notes ≡ reader.notes }
    ensures base { result.base ≡ reader.clock.time.base }
    ensures table { result.table ≡ fetched_of reader }
{
    let notes = reader.notes;
    let base = reader.clock.time.base;
    let table = fetched(reader);
    Collected { notes, base, table }
}

// The sheet of a ramp in the evening, when the tablet fetches both logs: both clocks are read at one instant.
fn evening(ramp: Ramp, tags: [u16; 8]) -> Page
    ensures { (page_text result ≡ evening_of tags ramp) × (result.len ≤ 864) }
{
    let left = ramp.left;
    let right = ramp.right;
    page_of(tags, collect(left), collect(right))
}

// The sheet of a day.
pub fn sheet(day: [Happening; 78], tags: [u16; 8]) -> Page
    ensures { (page_text result ≡ sheet_of day tags) × (result.len ≤ 864) }
{
    evening(played(day), tags)
}
