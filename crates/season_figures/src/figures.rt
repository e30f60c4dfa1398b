// What the records that a table holds come to, and figures taken together: "updates taken, seconds moved forward,
// seconds moved back, faults, and the largest move either way, all exact" (change request E12).
ghost use Rattle.std.specs.Prelude.{◌≡◌, true};
ghost use Rattle.table.specs.Table.{held, sound_b};
ghost use Rattle.season_figures.specs.Figures.{nothing, figures_of, sum_of, in_widths, figures_in};

use record::kinds::Record;
use table_look::look::{held_count, record_at};

// Seconds in 64 bits: 65,535 full tables move a clock by fewer than 2^63 of them (`theorems_season::theorems::exact`).
#[derive(Clone, Copy, Default)]
pub struct Figures {
    pub updates: u32,
    pub forward: u64,
    pub back: u64,
    pub faults: u32,
    pub largest: u32,
}

pub fn no_figures() -> Figures
    ensures { result ≡ nothing }
{
    Figures::default()
}

// The move either way is how far the two times are apart.
fn figures_of(r: Record) -> Figures
    ensures { result ≡ figures_of r }
{
    match r {
        Record::TimeUpdate(u) => Figures {
            updates: 1,
            forward: u.base.saturating_sub(u.oldbase) as u64,
            back: u.oldbase.saturating_sub(u.base) as u64,
            faults: 0,
            largest: u.base.abs_diff(u.oldbase),
        },
        Record::TimeFault(_) => Figures {
            faults: 1,
            ..no_figures()
        },
    }
}

// Both together, each sum in its width, which `+` would not show. Any figures are answered; those of 65,535 tables never go round.
pub fn together(f: Figures, g: Figures) -> Figures
    ensures { result ≡ in_widths (sum_of f g) }
{
    Figures {
        updates: f.updates.wrapping_add(g.updates),
        forward: f.forward.wrapping_add(g.forward),
        back: f.back.wrapping_add(g.back),
        faults: f.faults.wrapping_add(g.faults),
        largest: f.largest.max(g.largest),
    }
}

// The figures of a table, in one pass over its held records.
pub fn figures_in(t: &[u8]) -> Figures
    requires { sound_b t.now ≡ true }
    ensures { result ≡ figures_in (held t.now) }
{
    let among = held_count(t);
    let mut sum = no_figures();
    for age in 0..among {
        sum = together(sum, figures_of(record_at(t, age)));
    }
    sum
}
