// What is promised of the images beyond each call's own equation: each the promise of an empty function, so
// that the check asks for its proof.
ghost use Rattle.state_images.specs.Theorems.{StateImages, JoiningImages};

// A clock that obeys its rules and its image of 32 bytes stand for each other.
#[tactic(auto, using(crate::proofs::RoundTrip::state_images))]
pub fn state_images()
    ensures { StateImages }
{}

// A joining state and its image of 48 bytes stand for each other.
#[tactic(auto, using(crate::proofs::JoiningLaws::joining_images))]
pub fn joining_images()
    ensures { JoiningImages }
{}
