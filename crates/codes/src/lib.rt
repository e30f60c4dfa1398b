// The numbers of the two control points, by the names of document 002: opcodes and Response_Values of the Device
// Time Control Point, `dtcp`; opcodes, operators and filter type of the Record Access Control Point, `racp`; its
// response codes and the bytes of its responses, `response`. The ATT errors that go with refusals, `att`.
#![tactic(auto)]

pub mod att;
pub mod dtcp;
pub mod racp;
pub mod response;
