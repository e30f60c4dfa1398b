// No second outcome meets a promise of the server's doors.
// The theorem is `OneOutcome` of proofs/OfServer.antt: it speaks of contracts themselves, which no clause may name, so the proof cites it.
pub fn one_outcome()
    ensures { Unit {0} }
{}
