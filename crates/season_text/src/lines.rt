// The lines of the season figures, laid over a buffer. Each answers where it ends.
ghost use Rattle.std.specs.Prelude.{◌≡◌, ◌+◌, ◌≤◌, length};
ghost use Rattle.text.specs.Laid.{filled, laid};
ghost use Rattle.season_text.specs.Lines.{named, first_figures, last_figures, figures_text, table_line, refused_line, ended_line, total_line};

use season_figures::figures::Figures;
use text::put::{put_number, put_word};

// A word, and a number after it.
fn put_named(out: &mut [u8], at: usize, word: &[u8], n: u64) -> usize
    requires { at + length word.now + 20 ≤ length out.old }
    ensures { filled result out.new ≡ laid out.old at (named word.now n) }
{
    let end = put_word(out, at, word);
    put_number(out, end, n)
}

// Three words of at most 9 bytes, three numbers of at most 20 digits.
fn put_first(out: &mut [u8], at: usize, f: Figures) -> usize
    requires { at + 87 ≤ length out.old }
    ensures { filled result out.new ≡ laid out.old at (first_figures f) }
{
    let updates = put_named(out, at, b" updates ", f.updates as u64);
    let forward = put_named(out, updates, b" forward ", f.forward);
    put_named(out, forward, b" back ", f.back)
}

// Two words, two numbers, the line's end.
fn put_last(out: &mut [u8], at: usize, f: Figures) -> usize
    requires { at + 59 ≤ length out.old }
    ensures { filled result out.new ≡ laid out.old at (last_figures f) }
{
    let faults = put_named(out, at, b" faults ", f.faults as u64);
    let largest = put_named(out, faults, b" largest ", f.largest as u64);
    put_word(out, largest, b"\n")
}

fn put_figures(out: &mut [u8], at: usize, f: Figures) -> usize
    requires { at + 146 ≤ length out.old }
    ensures { filled result out.new ≡ laid out.old at (figures_text f) }
{
    let first = put_first(out, at, f);
    put_last(out, first, f)
}

pub fn put_table(out: &mut [u8], position: u32, f: Figures) -> usize
    requires { 166 ≤ length out.old }
    ensures { filled result out.new ≡ laid out.old 0 (table_line position f) }
{
    let end = put_number(out, 0, position as u64);
    put_figures(out, end, f)
}

pub fn put_refused(out: &mut [u8], position: u32) -> usize
    requires { 31 ≤ length out.old }
    ensures { filled result out.new ≡ laid out.old 0 (refused_line position) }
{
    let end = put_number(out, 0, position as u64);
    put_word(out, end, b" refused 1\n")
}

pub fn put_ended(out: &mut [u8], position: u32) -> usize
    requires { 27 ≤ length out.old }
    ensures { filled result out.new ≡ laid out.old 0 (ended_line position) }
{
    let end = put_named(out, 0, b"ended ", position as u64);
    put_word(out, end, b"\n")
}

pub fn put_total(out: &mut [u8], at: usize, f: Figures) -> usize
    requires { at + 151 ≤ length out.old }
    ensures { filled result out.new ≡ laid out.old at (total_line f) }
{
    let end = put_word(out, at, b"total");
    put_figures(out, end, f)
}
