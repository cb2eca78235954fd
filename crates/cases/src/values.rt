// What a field says: bytes, or a number. Of a bad field there is none.
ghost use Rattle.std.specs.Prelude.{◌≡◌};
ghost use Rattle.text.specs.Promise.{number_in, word_in};
ghost use Rattle.cases.specs.Fields.{field_of};
ghost use Rattle.cases.specs.Values.{BytesPromise, ExactPromise, most_room};

use crate::split::pick_field;

// The most room that a call is lent.
const MOST_ROOM: u32 = 70000;

// Where the bytes of a field stand in a buffer that holds those of several. No slice: a part lent out of
// the buffer would hide from the promise what the buffer holds behind it (docs/DECISIONS.md, P13).
#[derive(Clone, Copy)]
pub struct Span {
    pub from: usize,
    pub to: usize,
}

// Puts the bytes that a text says into `out` at `at`.
#[tactic(auto, using(crate::proofs::Reading::dash_odd), unfolding(crate::specs::Values::span_of, crate::specs::Values::readable))]
fn unhex_text(s: &[u8], out: &mut [u8], at: usize) -> Option<Span>
    ensures { BytesPromise out.old at s.now result out.new }
{
    if s == b"-".as_slice() {
        return Some(Span { from: at, to: at });
    }
    match text::unhex(out, at, s) {
        Ok(n) if n > 0 => Some(Span {
            from: at,
            to: at + n,
        }),
        _ => None,
    }
}

// Puts the bytes that a field says into `out` at `at`: lower-case hex, or `-` for none.
pub fn read_bytes(line: &[u8], k: usize, out: &mut [u8], at: usize) -> Option<Span>
    ensures { BytesPromise out.old at (field_of line.now k) result out.new }
{
    unhex_text(pick_field(line, k), out, at)
}

// A field of exactly N bytes.
pub fn read_exact<const N: usize>(line: &[u8], k: usize) -> Option<[u8; N]>
    ensures { ExactPromise N (field_of line.now k) result }
{
    let mut b = [0u8; N];
    match text::unhex(&mut b, 0, pick_field(line, k)) {
        Ok(n) if n == N => Some(b),
        _ => None,
    }
}

// A decimal field that is at most `most`.
#[tactic(auto, using(text::proofs::Reading::number_most))]
pub fn read_decimal(line: &[u8], k: usize, most: u32) -> Option<u32>
    ensures { result ≡ number_in 10 most (field_of line.now k) }
{
    let v = text::undecimal(pick_field(line, k), u64::from(most))?;
    u32::try_from(v).ok()
}

// A field of eight hex digits.
pub fn read_id(line: &[u8], k: usize) -> Option<u32>
    ensures { result ≡ word_in (field_of line.now k) }
{
    text::unhex8(pick_field(line, k))
}

// How much room a call is lent.
pub fn read_room(line: &[u8], k: usize) -> Option<u32>
    ensures { result ≡ number_in 10 most_room (field_of line.now k) }
{
    read_decimal(line, k, MOST_ROOM)
}
