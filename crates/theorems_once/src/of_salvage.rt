// No second outcome meets a promise of salvage's calls.
// The theorem is `OneOutcome` of proofs/OfSalvage.antt: it speaks of contracts themselves, which no clause may name, so the proof cites it.
pub fn one_outcome()
    ensures { Unit {0} }
{}
