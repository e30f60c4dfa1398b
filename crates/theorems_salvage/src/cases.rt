// Cases of salvage, worked by hand and run by the checker.
ghost use Rattle.theorems_salvage.specs.Cases.{Computed};

pub fn computed()
    ensures { Computed }
{}
