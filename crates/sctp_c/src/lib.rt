//! One endpoint of an SCTP association for C: the calls of the header `sctp_endpoint.h`, each over one `sctp_endpoint::Endpoint` (RFC 9260, 11.1);
//! and data channels over one, the calls of `sctp_channels.h` (`channels`).
//!
//! A handle, `SctpEndpoint`, is in the caller's memory: it is empty, which is all zero, or has the address of an endpoint in a block of its own.
//! A call tests handle and arguments, borrows the endpoint in place, calls it, and writes for C what it returned:
//! - results and verdicts as numbers, whose values are laws (`result_numbers`, `verdict_numbers`, `flag_numbers`);
//! - bytes at the beginning of a buffer of the caller; after them, and in all of it if the call is refused, the buffer is unchanged;
//! - structs, of which reserved numbers are 0. Reserved numbers that the caller passes in must be 0, and flags
//!   must have a meaning, else the call is refused.
//!
//! Contracts are those of the endpoint, for every view that it stands for (`Holds`). A call that may allocate may also return that this failed, and
//! contracts don't say when. No proof can state the layout of structs and the order of parameters in C: tests/layout.sh compares code, header and
//! bindings. What a caller must observe, as that pointers are valid, is in the header.
#![tactic(auto)]

mod block;
mod buffers;
mod calls;
mod channels;
mod codes;
mod config;
mod counts;
mod crossing;
mod handle;
mod key;
mod making;
mod messages;
mod names;
mod packets;
mod path;
mod reading;
mod resets;
mod sending;
mod slot;
mod status;
