// What is promised of the entry points beyond each one's own equation: each the promise of an empty function,
// so that the check asks for its proof.
ghost use Rattle.theorems_entry.specs.Theorems.{RefusedUnchanged, NoImage, Composes, Errors};
ghost use Rattle.theorems_entry.specs.Lengths.{Lengths, Written};
ghost use Rattle.theorems_entry.specs.Cases.{Computed};

// A result below 0 leaves every lent byte as it was, but for joining, where it leaves zeros.
#[tactic(auto, using(crate::proofs::PromiseLaws::unchanged))]
pub fn refused_unchanged()
    ensures { RefusedUnchanged }
{}

// A state that is no image is refused with 2, after 1 where a table is lent, and nothing is written.
#[tactic(auto, using(crate::proofs::NoImageLaws::no_images))]
pub fn no_image()
    ensures { NoImage }
{}

// Over the image of a clock that obeys its rules each entry point is the call by value, with the image of its
// clock after.
#[tactic(auto, using(crate::proofs::PromiseLaws::composes))]
pub fn composes()
    ensures { Composes }
{}

// The ATT error of an answer's number is the answer's.
#[tactic(auto, using(crate::proofs::PromiseLaws::errors))]
pub fn errors()
    ensures { Errors }
{}

// The lengths that the header's comments give for the answers of each entry point, whatever bytes are lent.
#[tactic(auto, using(crate::proofs::LengthLaws::lengths))]
pub fn lengths()
    ensures { Lengths }
{}

// The output has room for the bytes that the answer counts, and those past them keep their old values.
#[tactic(auto, using(crate::proofs::LengthLaws::written))]
pub fn written()
    ensures { Written }
{}

// The paper's case 1 over bytes: start, switches, the write and its response.
pub fn computed()
    ensures { Computed }
{}
