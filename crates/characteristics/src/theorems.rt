// What is promised of the values beyond each call's own equation: each the promise of an empty function, so
// that the check asks for its proof.
ghost use Rattle.characteristics.specs.Theorems.{RefusedUnchanged};
ghost use Rattle.characteristics.specs.Cases.{Computed};

// Reading changes neither clock nor table, and a refusal not the output either.
pub fn refused_unchanged()
    ensures { RefusedUnchanged }
{}

pub fn computed()
    ensures { Computed }
{}
