// The theorems about fetching what is missing: each the promise of an empty function, so that the check asks for its proof.
ghost use Rattle.theorems_fetched.specs.Fetched.{AsksForRun, FetchesRun, FetchesRest};
ghost use Rattle.theorems_fetched.specs.FetchedAt.{FetchesRestAt};
ghost use Rattle.theorems_fetched.specs.CasesAt.{ComputedAt};

// The seven bytes ask for the run.
pub fn asks_for_run()
    ensures { AsksForRun }
{}

// After the fetch of a proposed run its numbers are received, and every other is as it was.
pub fn fetches_run()
    ensures { FetchesRun }
{}

// Beside a copy one fetch of what is proposed leaves nothing missing.
pub fn fetches_rest()
    ensures { FetchesRest }
{}

// The same over the bytes that the tablet's C code holds, from `dts_start` to `dts_fetch_propose`.
pub fn fetches_rest_at()
    ensures { FetchesRestAt }
{}

// A reader's log that has wrapped, of which the tablet has one record and fetches the others.
pub fn computed_at()
    ensures { ComputedAt }
{}
