// The room that is lent to a call: bytes EE, so that it shows where one was written.
ghost use Rattle.std.specs.Prelude.{◌≡◌};
ghost use Rattle.cases.specs.Answer.{SayPromise};
ghost use Rattle.cases.specs.Room.{lent_of, untouched, spill_pieces};

use crate::split::pick_part;
use text::Cursor;

// The byte that stands everywhere in a room that is lent.
const LENT: u8 = 0xee;

// Makes the first n bytes of the room as they are lent; none where it has fewer.
#[tactic(auto, unfolding(crate::specs::Room::lent_of, octets::specs::Place::begun))]
pub fn fill_room(room: &mut [u8], n: usize)
    ensures { room.new ≡ lent_of n room.old }
{
    if n <= room.len() {
        room[..n].fill(LENT);
    }
}

// Whether each byte is as it was lent.
fn is_untouched(s: &[u8]) -> bool
    ensures { result ≡ untouched s.now }
{
    s.iter().all(|b| *b == LENT)
}

// ` spilled`, where a byte of the room from `from` up to `to` is not as it was lent.
#[tactic(auto, unfolding(crate::specs::Room::spill_pieces))]
pub fn say_spill(out: &mut [u8], c: Cursor, room: &[u8], from: usize, to: usize) -> Cursor
    ensures { SayPromise out.old c (spill_pieces room.now from to) result out.new }
{
    if is_untouched(pick_part(room, from, to)) {
        return c;
    }
    text::add(out, c, b" spilled")
}
