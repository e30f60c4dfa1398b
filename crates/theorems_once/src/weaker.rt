// Weaker promises are not of one outcome: what the other theorems of this crate shut out.
// The theorem is `TwoOutcomes` of proofs/WeakerPromises.antt: it speaks of contracts themselves, which no clause may name, so the proof cites it.
pub fn two_outcomes()
    ensures { Unit {0} }
{}
