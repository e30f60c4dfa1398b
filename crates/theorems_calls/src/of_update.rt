// What is promised of time updates beyond each call's own equation: each the promise of an empty function,
// so that the check asks for its proof.
ghost use Rattle.theorems_calls.specs.OfUpdate.{GroundsAlone, AllGrounds, RadioTime};
ghost use Rattle.theorems_calls.specs.UpdateCases.{Computed};

pub fn grounds_alone()
    ensures { GroundsAlone }
{}

pub fn all_grounds()
    ensures { AllGrounds }
{}

pub fn radio_time()
    ensures { RadioTime }
{}

pub fn computed()
    ensures { Computed }
{}
