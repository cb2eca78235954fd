// Lines of text: numbers in decimal and hex, both ways; the fields of a line; the line of one packet.
#![tactic(auto)]

mod line;
mod read;
mod split;
mod write;

pub use line::{Packet, packet_line};
pub use read::{UnhexError, undecimal, unhex, unhex8};
pub use split::{field_end, fields};
pub use write::{Cursor, add, decimal, hex, hex8};
