// A promise of the entry points is met by some outcome, whatever bytes are lent.
// The theorem is `SomeOutcome` of proofs/OfEntries.antt: it speaks of contracts themselves, which no clause may name, so the proof cites it.
pub fn some_outcome()
    ensures { Unit {0} }
{}
