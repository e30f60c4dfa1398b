// The operand of Propose and Force Time Update, by value: document 002, Table 3.16, without second fractions.
ghost use Rattle.std.specs.Prelude.{◌≡◌, length};
ghost use Rattle.update_judge.specs.Proposal.{update_write_bytes, proposal_at};

use octets::numbers::{get16, get32};

#[derive(Clone, Copy)]
pub struct Proposal {
    // Time_Update_Flags, Table 3.17
    pub flags: u16,
    pub base: u32,
    // as its byte
    pub zone: u8,
    pub dst: u8,
    pub source: u8,
    pub accuracy: u8,
}

// Behind the door: a write of the right length is taken for what its bytes say.
#[tactic(auto, unfolding(crate::specs::Proposal::proposal_at))]
pub fn proposal_at(write: &[u8]) -> Proposal
    requires { length write.now ≡ update_write_bytes }
    ensures { result ≡ proposal_at write.now }
{
    Proposal {
        flags: get16(write, 1),
        base: get32(write, 3),
        zone: write[7],
        dst: write[8],
        source: write[9],
        accuracy: write[10],
    }
}
