// The fields of a case's line and the words of its answer (docs/REPLAY.md), for every program that answers cases.
#![tactic(auto)]

mod answer;
mod input;
mod room;
mod split;
mod values;

pub use answer::{say_bytes, say_id, say_number, say_refusal};
pub use input::{Input, gather, pick_line};
pub use room::{fill_room, say_spill};
pub use split::{look_up, pass_field, pick_field, pick_part};
pub use values::{Span, read_bytes, read_decimal, read_exact, read_id, read_room};
