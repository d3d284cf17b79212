//! What a resource's programs are sent, and what their replies say.
//!
//! [`check_request`], [`in_request`] and [`out_request`] give the bytes for a program's standard input: an object of
//! `params`, `source` and `version` as compact JSON without a line end. A request of more than 65,536 bytes is refused.
//!
//! [`read_check`], [`read_in`] and [`read_out`] read what a program wrote on its standard output, on any bytes.
//! Contracts see the bytes as the JSON value that they spell, and `specs/Replies.antt` says what each value is read as.
//! Refusals are the variants of [`RequestFault`] and [`ReplyFault`]; `NoMemory` comes only where memory runs out.
#![tactic(auto)]

mod fault;
mod reply;
mod request;

pub use fault::{ReplyFault, RequestFault};
pub use reply::{read_check, read_in, read_out};
pub use request::{MOST_REQUEST, check_request, in_request, out_request};
