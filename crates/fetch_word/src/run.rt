// The first run of missing numbers, looked for a word at a time: its bits are those of numbers in a row, set where a number is received.
ghost use Rattle.std.specs.Prelude.{◌≡◌, true, ◌+◌, ◌≤◌, eqb};
ghost use Rattle.fetch_word.specs.Bits.{bit_b, row};
ghost use Rattle.fetch_word.specs.Run.{run as Run·run, missing_first, received_first, look_all};

// What was seen so far: how many received numbers came before the run, and how long the run is. It is ongoing until a received number
// comes after a missing one; both numbers stand either way, so that this is no optional value.
#[derive(Clone, Copy)]
pub struct Run {
    pub before: u32,
    pub length: u32,
    pub ongoing: bool,
}

// How many of the n lowest bits are set, up to the first that isn't: "the first gap is found from trailing ones".
fn trailing_ones(x: u64, n: u32) -> u32
    requires { n ≤ 64 }
    ensures { result ≡ received_first (row (bit_b x) n) }
{
    (!x).trailing_zeros().min(n)
}

// How many of them are not set, up to the first that is.
fn trailing_gap(x: u64, n: u32) -> u32
    requires { n ≤ 64 }
    ensures { result ≡ missing_first (row (bit_b x) n) }
{
    x.trailing_zeros().min(n)
}

// A run that has begun goes on with the n lowest bits of x.
fn go_on(before: u32, length: u32, x: u64, n: u32) -> Run
    requires { (n ≤ 64) × (length + n ≤ 65536) }
    ensures { result ≡ Run·run before (length + missing_first (row (bit_b x) n)) (eqb (missing_first (row (bit_b x) n)) n) }
{
    let gap = trailing_gap(x, n);
    Run {
        before,
        length: length + gap,
        ongoing: gap == n,
    }
}

// The n lowest bits of x, seen after what was seen so far.
pub fn look(seen: Run, x: u64, n: u32) -> Run
    requires { (n ≤ 64) × (seen.ongoing ≡ true) × (seen.before + seen.length + n ≤ 65536) }
    ensures { result ≡ look_all seen (row (bit_b x) n) }
{
    if 0 < seen.length {
        return go_on(seen.before, seen.length, x, n);
    }
    let received = trailing_ones(x, n);
    if received == n {
        return Run {
            before: seen.before + n,
            length: 0,
            ongoing: true,
        };
    }
    go_on(seen.before + received, 0, x >> received, n - received)
}
