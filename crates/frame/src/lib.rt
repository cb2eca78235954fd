// Session packets and datagrams: every call that reads, writes or opens one, the payload's place, and what they speak of.
#![tactic(auto)]

mod opening;
mod place;

pub use opening::{check_outer, open_in_place, read_datagram, read_payload};
pub use place::payload;
pub use reader::{Accepted, Read, read_checked, read_with_code};
pub use suite::{Confidentiality, Integrity, PayloadType, SubState, code_len, encrypts};
pub use writer::{write_datagram, write_payload};
