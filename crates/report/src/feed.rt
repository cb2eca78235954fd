// The one packet that an input holds.
ghost use Rattle.std.specs.Prelude.{◌≡◌, ◌+◌, ◌<◌, ◌≤◌, IfOk, OnErr, length, take};
ghost use Rattle.std.specs.Io.KnownBytes.{Consumes, IsAtEnd};
ghost use Rattle.report.specs.Told.{longest};
ghost use Rattle.report.specs.Fed.{Fed};

use crate::{LONGEST, tell};
use std::io;
use std::io::Read;
use text::Cursor;

// One byte more than the longest packet, so that a longer input shows as one.
const ROOM: usize = LONGEST + 1;

// A function of its own: its promise is what refuses a room of another size (docs/PORT.md, room_of_4096 and room_of_4098).
fn make_room() -> [u8; ROOM]
    ensures { length result ≡ longest + 1 }
{
    [0u8; ROOM]
}

// Goes on after a short read, until the input ends or there is no more room, and answers how many bytes were read: they stand at the
// room's start. `cost` has a copy, and no public call takes its place: one must promise every byte that it is lent, and what a reader leaves
// behind the bytes that it gave is its own (docs/DECISIONS.md, Y3). The loop stays a `while`: a read says how far it came, and std's whole
// reads say too little of the room after an error.
fn read_full<R: Read>(input: &mut R, room: &mut [u8]) -> io::Result<usize>
    ensures bound { IfOk result (λ n. n ≤ length room.new) }
    ensures bytes { IfOk result (λ n.
        Consumes (R.remaining input.old) (R.remaining input.new) (take n room.new)) }
    ensures end { IfOk result (λ n. n < length room.new → IsAtEnd (R.remaining input.new)) }
{
    let mut done = 0;
    while done < room.len() {
        let n = input.read(&mut room[done..])?;
        if n == 0 {
            break;
        }
        done += n;
    }
    Ok(done)
}

// Adds the line that tells what becomes of the one packet that an input holds. Where a read fails nothing is added.
pub fn tell_input<R: Read>(input: &mut R, out: &mut [u8], c: Cursor) -> io::Result<Cursor>
    ensures fed { IfOk result (λ r. Fed (R.remaining input.old) (R.remaining input.new) out.old c r out.new) }
    ensures err { OnErr result (out.new ≡ out.old) }
{
    let mut packet = make_room();
    let n = read_full(input, &mut packet)?;
    Ok(tell(&packet[..n], out, c))
}
