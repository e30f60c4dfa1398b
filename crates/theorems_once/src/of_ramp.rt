// No second outcome meets a promise of the ramp's calls.
// The theorem is `OneOutcome` of proofs/OfRamp.antt: it speaks of contracts themselves, which no clause may name, so the proof cites it.
pub fn one_outcome()
    ensures { Unit {0} }
{}
