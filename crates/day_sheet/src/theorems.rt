// What the promises of this crate come to: each the promise of an empty function, so that the check asks for its
// proof.
ghost use Rattle.day_sheet.specs.Theorems.{Computed};

// Lines with what an ordinary day does not show.
pub fn computed()
    ensures { Computed }
{}
