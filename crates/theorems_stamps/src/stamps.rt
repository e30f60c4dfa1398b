// The theorems about carried stamps: each the promise of an empty function, so that the check asks for its proof.
ghost use Rattle.carry.specs.Stamp.{carry_of};
ghost use Rattle.theorems_stamps.specs.Stamps.{HoldsLogged, CarriedStamp};
ghost use Rattle.theorems_stamps.specs.Cases.{Computed};
ghost use Rattle.theorems_stamps.specs.Wrong.{ShutOut, OneCarrying};

// The log holds the newest of all records that the calls logged, as many as it has slots.
pub fn holds_logged()
    ensures { HoldsLogged }
{}

// A stamp carried over the log answers exactly when it can, and then tells the seconds that ran.
pub fn carried_stamp()
    ensures { CarriedStamp carry_of }
{}

// Stamps carried in five histories, computed: the paper's case 6, a clock set far back, a fault after and before, a record overwritten.
pub fn computed()
    ensures { Computed }
{}

// Two ways of carrying that keep the theorem are one.
pub fn one_carrying()
    ensures { OneCarrying }
{}

// Wrong ways of carrying, none of which keeps it; nor can its bound be loosened.
pub fn shut_out()
    ensures { ShutOut }
{}
