// The proposal: "the first run of held numbers not yet received", in one way round the map that looks at each word once, at most.
ghost use Rattle.std.specs.Prelude.{◌≡◌, true, ◌+◌, ◌≤◌, ◌<◌, ◌%◌, min};
ghost use Rattle.fetch_word.specs.Bits.{bit_b, row};
ghost use Rattle.fetch_word.specs.Run.{look_all, unseen};
ghost use Rattle.fetch_told.specs.Told.{range_size};
ghost use Rattle.fetch_propose.specs.Propose.{number_at, numbers_from, run_after, run_among, propose_of};
ghost use Rattle.fetch_propose.specs.Search.{Within, left_of, WentRound};

use fetch_map::refusal::Refusal;
use fetch_told::told::{MAP_WORDS, Span};
use fetch_word::run::{Run, look};

// A search through `size` numbers in a row, as far as it has come. No more was seen than there is.
#[derive(Clone, Copy)]
struct Search {
    seen: Run,
    size: u32,
    ghost most: { size ≤ 65536 },
    ghost within: { Within size seen },
}

impl Search {
    // How many numbers are still to be looked at: none once the run has ended.
    fn left(self) -> u32
        ensures { result ≡ left_of self.seen self.size }
    {
        if self.seen.ongoing {
            return self.size - (self.seen.before + self.seen.length);
        }
        0
    }

    // One word more, or as many of its lowest bits as numbers are left.
    fn look_on(self, x: u64) -> Search
        ensures seen { result.seen ≡ look_all self.seen (row (bit_b x) (min (left_of self.seen self.size) 64)) }
        ensures size { result.size ≡ self.size }
    {
        let n = self.left().min(64);
        if n == 0 {
            return self;
        }
        let seen = look(self.seen, x, n);
        Search {
            seen,
            size: self.size,
        }
    }

    // The other words, from the one after `word` round to the one before it, as long as numbers are left.
    fn look_round(self, words: &[u64; MAP_WORDS], word: usize) -> Search
        requires { (word < 1024) × (left_of self.seen self.size ≤ 65535) }
        ensures seen { WentRound words.now word self.size self.seen result.seen }
        ensures size { result.size ≡ self.size }
    {
        let mut search = self;
        for k in 1..MAP_WORDS {
            if search.left() == 0 {
                return search;
            }
            search = search.look_on(words[(word + k) % MAP_WORDS]);
        }
        search
    }
}

// All numbers of a range: the first word from its oldest number on, the words after it, and what is left in the first word, which is
// not read a second time.
fn look_through(words: &[u64; MAP_WORDS], oldest: u16, size: u32) -> Run
    requires { (1 ≤ size) × (size ≤ 65536) }
    ensures { result ≡ look_all unseen (numbers_from words.now oldest size) }
{
    let word = (oldest / 64) as usize;
    let bit = (oldest % 64) as u32;
    let first = words[word];
    let none = Run {
        before: 0,
        length: 0,
        ongoing: true,
    };
    let seen = look(none, first >> bit, size.min(64 - bit));
    let begun = Search { seen, size };
    begun.look_round(words, word).look_on(first).seen
}

// So many steps may be 65,536, which no number of 16 bits is: they are taken in 32 bits.
fn number_at(oldest: u16, steps: u32) -> u16
    requires { steps ≤ 65536 }
    ensures { result ≡ number_at oldest steps }
{
    ((oldest as u32 + steps) % 65536) as u16
}

fn proposed(oldest: u16, run: Run) -> Option<Span>
    requires { Within 65536 run }
    ensures { result ≡ run_after oldest run.before run.length }
{
    if run.length == 0 {
        return None;
    }
    Some(Span {
        first: number_at(oldest, run.before),
        last: number_at(oldest, run.before + run.length - 1),
    })
}

// Among the numbers of the told range.
fn first_run(words: &[u64; MAP_WORDS], held: Span) -> Option<Span>
    ensures { result ≡ run_among held.first (numbers_from words.now held.first (range_size held.first held.last)) }
{
    proposed(held.first, look_through(words, held.first, held.size()))
}

// The run's first and last number, or none: "or says that nothing is missing exactly when that is so". Refuses: 3.
pub fn propose(map: &[u64], told: Option<Span>) -> Result<Option<Span>, Refusal>
    ensures { result ≡ propose_of map.now told }
{
    let Some(words) = map.as_array() else {
        return Err(Refusal::WrongWords);
    };
    let Some(held) = told else {
        return Ok(None);
    };
    Ok(first_run(words, held))
}
