// What is to happen with a write to the Device Time Control Point (document 01, "Time updates"): by its opcode, then
// its length, then its grounds.
ghost use Rattle.std.specs.Prelude.{◌≡◌, ◌≤◌, length};
ghost use Rattle.update_decide.specs.Decide.{update_operand, decide_of};

use clock::state::Clock;
use codes::dtcp::{FORCE_OPCODE, PROPOSE_OPCODE};
use update_judge::grounds::grounds;
use update_judge::proposal::{Proposal, proposal_at};

// The opcode and the operand's 10 bytes.
const UPDATE_WRITE_BYTES: usize = 11;

// Why a proposal is not taken.
#[derive(Clone, Copy)]
pub enum NotTaken {
    Unsupported,
    WrongLength,
    // with all flags that apply
    Rejected(u16),
}

// The same for both procedures: the operand's length, then the grounds. In line in both: as a call it handed the clock and the decision
// over in memory, and a time update took a sixth longer.
#[inline(always)]
fn decide_operand(c: Clock, write: &[u8], forced: bool) -> Result<Proposal, NotTaken>
    ensures { result ≡ update_operand c write.now forced }
{
    if write.len() != UPDATE_WRITE_BYTES {
        return Err(NotTaken::WrongLength);
    }
    let p = proposal_at(write);
    let time = c.time;
    let flags = grounds(time, p, forced);
    if flags == 0 {
        return Ok(p);
    }
    Err(NotTaken::Rejected(flags))
}

// By the opcode: 2 Propose, 3 Force; any other is unsupported, whatever follows it.
// Requires a byte: row 4 is tested before.
pub fn decide(c: Clock, write: &[u8]) -> Result<Proposal, NotTaken>
    requires { 1 ≤ length write.now }
    ensures { result ≡ decide_of c write.now }
{
    match write[0] {
        PROPOSE_OPCODE => decide_operand(c, write, false),
        FORCE_OPCODE => decide_operand(c, write, true),
        _ => Err(NotTaken::Unsupported),
    }
}
