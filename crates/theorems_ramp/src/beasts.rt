// The theorem One beast: each statement the promise of an empty function, so that the check asks for its proof.
ghost use Rattle.theorems_ramp.specs.OneBeast.{OneBeastHolds};
ghost use Rattle.theorems_ramp.specs.OneBeastAt.{OneBeastAt};
ghost use Rattle.theorems_ramp.specs.Cases.{Computed};
ghost use Rattle.theorems_ramp.specs.Wrong.{ShutOut};

// "one" exactly where at most so many seconds ran between the two reads, however often either clock was set; whatever way of
// carrying keeps its promise, this follows from that promise.
pub fn one_beast()
    ensures { OneBeastHolds }
{}

// The same over the bytes that C holds.
pub fn one_beast_at()
    ensures { OneBeastAt }
{}

// Histories, computed: the drivers' own story among them.
pub fn computed()
    ensures { Computed }
{}

// Wrong ways to judge, each with a case.
pub fn shut_out()
    ensures { ShutOut }
{}
