// The Device Time Control Point's numbers (document 002, Tables 3.15 and 3.21). As they stand in a write or a response: every byte is
// answered, and a match on it says which.
// Propose and Force Time Update, and the response to either: Table 3.15.
pub const PROPOSE_OPCODE: u8 = 2;

pub const FORCE_OPCODE: u8 = 3;

pub const RESPONSE_OPCODE: u8 = 9;

// The Response_Values of Table 3.21 that are given.
pub const SUCCESS: u8 = 1;

pub const OPCODE_NOT_SUPPORTED: u8 = 2;

pub const INVALID_OPERAND: u8 = 3;

pub const PROCEDURE_REJECTED: u8 = 5;
