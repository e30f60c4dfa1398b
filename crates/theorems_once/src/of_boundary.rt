// No second outcome meets a promise of the entry points.
// The theorem is `OneOutcome` of proofs/OfBoundary.antt: it speaks of contracts themselves, which no clause may name, so the proof cites it.
pub fn one_outcome()
    ensures { Unit {0} }
{}
