// The theorems about copies: each the promise of an empty function, so that the check asks for its proof.
ghost use Rattle.theorems_copies.specs.Copies.{FetchedCopy, FetchedOn, CarriedOverCopy};
ghost use Rattle.theorems_copies.specs.CopiesAt.{FetchedCopyAt, FetchedOnAt, CarriedOverCopyAt, CarriedCopyAt};
ghost use Rattle.theorems_copies.specs.Cases.{Computed};
ghost use Rattle.theorems_copies.specs.CasesAt.{ComputedAt};

// A finished report of all records, joined and kept in a new table, makes a copy of the reader's log.
pub fn fetched_copy()
    ensures { FetchedCopy }
{}

// What is new, asked for by the copy's next number and kept in the copy.
pub fn fetched_on()
    ensures { FetchedOn }
{}

// A stamp carried over a copy that holds enough is carried as over the reader's own table.
pub fn carried_over_copy()
    ensures { CarriedOverCopy }
{}

// The same over the bytes that the tablet's C code holds: what `dts_join` gives, kept by `dts_keep`.
pub fn fetched_copy_at()
    ensures { FetchedCopyAt }
{}

// What is new, over bytes too.
pub fn fetched_on_at()
    ensures { FetchedOnAt }
{}

// What `dts_carry` leaves over a copy is what it leaves over the reader's own table.
pub fn carried_over_copy_at()
    ensures { CarriedOverCopyAt }
{}

// A stamp noted, any calls, the log fetched: `dts_carry` over the copy tells the seconds that ran.
pub fn carried_copy_at()
    ensures { CarriedCopyAt }
{}

// A log that has wrapped, fetched into copies of five slots and of two, and stamps carried over them.
pub fn computed()
    ensures { Computed }
{}

// The same over bytes, from `dts_start` to `dts_carry`.
pub fn computed_at()
    ensures { ComputedAt }
{}
