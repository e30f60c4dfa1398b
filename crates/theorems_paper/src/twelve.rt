// The numbers that the drivers worked out, proved together (document 01, under that heading): the promise of an empty
// function, so that the check asks for its proof.
ghost use Rattle.theorems_paper.specs.Twelve.{TwelveCases};

// The twelve cases of document 01, in its order.
#[tactic(auto, using(crate::proofs::TwelveLaws::twelve_cases))]
pub fn twelve_cases()
    ensures { TwelveCases }
{}
