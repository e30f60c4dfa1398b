// A day on the ramp: two readers just started, and what happens at one of them or at both, one thing after the other.
ghost use Rattle.std.specs.Prelude.{◌≡◌};
ghost use Rattle.day_play.specs.Play.{opened_of, stepped_of, played_of};

use crate::reader::{Event, Reader, lived, started};

#[derive(Clone, Copy)]
pub enum Antenna {
    Left,
    Right,
    Both,
}

#[derive(Clone, Copy)]
pub struct Happening {
    pub at: Antenna,
    pub event: Event,
}

#[derive(Clone, Copy)]
pub struct Ramp {
    pub left: Reader,
    pub right: Reader,
}

fn opened() -> Ramp
    ensures { result ≡ opened_of }
{
    Ramp {
        left: started(),
        right: started(),
    }
}

fn stepped(ramp: Ramp, h: Happening) -> Ramp
    ensures { result ≡ stepped_of ramp h }
{
    let left = ramp.left;
    let right = ramp.right;
    let at = h.at;
    let event = h.event;
    match at {
        Antenna::Left => Ramp {
            left: lived(left, event),
            right,
        },
        Antenna::Right => Ramp {
            left,
            right: lived(right, event),
        },
        Antenna::Both => Ramp {
            left: lived(left, event),
            right: lived(right, event),
        },
    }
}

// The ramp after all that happened, from two readers just started.
pub fn played(day: [Happening; 78]) -> Ramp
    ensures { result ≡ played_of opened_of day }
{
    let mut ramp = opened();
    for happening in day {
        ramp = stepped(ramp, happening);
    }
    ramp
}
