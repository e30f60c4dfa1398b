// The DTCP response to a decision (document 002, Tables 3.20 and 3.21). None requires anything.
ghost use Rattle.std.specs.Prelude.{◌≡◌, [], ◌∷◌};
ghost use Rattle.codes.specs.Dtcp.{response_opcode};
ghost use Rattle.octets.specs.Bytes.{padded};
ghost use Rattle.update_decide.specs.Response.{response_of};

use crate::decide::NotTaken;
use codes::dtcp::{
    INVALID_OPERAND, OPCODE_NOT_SUPPORTED, PROCEDURE_REJECTED, RESPONSE_OPCODE, SUCCESS,
};
use octets::bytes::Bytes;
use octets::numbers::bytes2;
use update_judge::proposal::Proposal;

// A response's bytes, and zeros after them up to the longest response's length.
pub type Response = Bytes<5>;

fn short(opcode: u8, value: u8) -> Response
    ensures { result ≡ padded 5 (response_opcode ∷ opcode ∷ value ∷ []) }
{
    Bytes {
        len: 3,
        bytes: [RESPONSE_OPCODE, opcode, value, 0, 0],
    }
}

// The response to a write with this opcode.
#[tactic(auto, unfolding(crate::specs::Response::response_of, crate::specs::Response::response_bytes))]
pub fn response_of(opcode: u8, d: Result<Proposal, NotTaken>) -> Response
    ensures { result ≡ response_of opcode d }
{
    match d {
        Ok(_) => short(opcode, SUCCESS),
        Err(NotTaken::Unsupported) => short(opcode, OPCODE_NOT_SUPPORTED),
        Err(NotTaken::WrongLength) => short(opcode, INVALID_OPERAND),
        Err(NotTaken::Rejected(flags)) => {
            let f = bytes2(flags);
            Bytes {
                len: 5,
                bytes: [RESPONSE_OPCODE, opcode, PROCEDURE_REJECTED, f[0], f[1]],
            }
        }
    }
}
