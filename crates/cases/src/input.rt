// Lines out of an input that comes in pieces.
ghost use Rattle.std.specs.Prelude.{◌≡◌};
ghost use Rattle.cases.specs.Input.{GatherPromise, line_of};

use crate::split::pick_part;
use text::Cursor;

#[derive(Clone, Copy)]
pub struct Input {
    // What is left of the piece that was read last: two places and no slice, since `GatherPromise` says where the next line goes on.
    pub from: usize,
    pub to: usize,
    // What has been gathered of the line; full once the line is longer than is taken.
    pub line: Cursor,
    // Whether that is the whole line. No Option around the cursor: it counts either way, for the next piece goes on from it.
    pub whole: bool,
}

// Adds what the piece has of the line, and goes past the newline, where there is one.
#[tactic(auto, using(crate::proofs::Gathering::gather_room))]
pub fn gather(s: Input, piece: &[u8], line: &mut [u8]) -> Input
    ensures { GatherPromise s piece.now line.old result line.new }
{
    let left = pick_part(piece, s.from, s.to);
    let n = text::field_end(left, 0, b'\n');
    let c = text::add(line, s.line, pick_part(left, 0, n));
    if n < left.len() {
        return Input {
            from: s.from + n + 1,
            line: c,
            whole: true,
            ..s
        };
    }
    Input {
        from: s.to,
        line: c,
        whole: false,
        ..s
    }
}

// The line that was gathered. One that is longer than is taken counts as an empty one, which is bad too.
#[tactic(auto, unfolding(crate::specs::Input::line_of, crate::specs::Fields::part_of, crate::specs::Fields::part_at))]
pub fn pick_line(line: &[u8], c: Cursor) -> &[u8]
    ensures { (result.now ≡ line_of line.now c)
        × (result.ref_ptr.0 ≡ line.entry.ref_ptr.0)
        × (result.ref_ptr.1 ≡ line.entry.ref_ptr.1) }
{
    if c.full {
        pick_part(line, 0, 0)
    } else {
        pick_part(line, 0, c.at)
    }
}
