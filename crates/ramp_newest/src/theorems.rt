// What the calls come to: the promise of an empty function, so that the check asks for its proof.
ghost use Rattle.ramp_newest.specs.Theorems.{WhichIsLater, ItsBytes};

// Which record is answered, said without the search for it; what is handed back are its bytes, and nothing exactly on refusal.
pub fn newest_updates()
    ensures { WhichIsLater × ItsBytes }
{}
