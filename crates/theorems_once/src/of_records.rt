// No second outcome meets a promise of the calls on fields, filters and records.
// The theorem is `OneOutcome` of proofs/OfRecords.antt: it speaks of contracts themselves, which no clause may name, so the proof cites it.
pub fn one_outcome()
    ensures { Unit {0} }
{}
