// The Record Access Control Point's numbers (document 002, Tables 3.24 and 3.25). As they stand in a write or a response: every byte is
// answered, and a match on it says which.
// The opcodes that are supported: Report Stored Records, Abort, Number, Combined Report.
pub const REPORT_OPCODE: u8 = 1;

pub const ABORT_OPCODE: u8 = 3;

pub const NUMBER_OPCODE: u8 = 4;

pub const COMBINED_OPCODE: u8 = 7;

// The opcodes of the responses.
pub const NUMBER_RESPONSE: u8 = 5;

pub const CODE_RESPONSE: u8 = 6;

pub const COMBINED_RESPONSE: u8 = 8;

// The operators of Table 3.25.
pub const NULL: u8 = 0;

pub const ALL_RECORDS: u8 = 1;

pub const AT_MOST: u8 = 2;

pub const AT_LEAST: u8 = 3;

pub const WITHIN_RANGE: u8 = 4;

pub const FIRST_RECORD: u8 = 5;

pub const LAST_RECORD: u8 = 6;

// The filter type of an operand that has one: the sequence number.
pub const SEQUENCE_TYPE: u8 = 1;
