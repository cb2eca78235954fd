// Text into a lent buffer, piece after piece, at a cursor.
ghost use Rattle.std.specs.Prelude.{◌≡◌, ◌+◌, ◌*◌, ◌%◌, ◌<◌, ◌≤◌, length, drop};
ghost use Rattle.octets.specs.Place.{pasted};
ghost use Rattle.text.specs.Digits.{digit, decimal, hex, hex8};
ghost use Rattle.text.specs.Promise.{takes, AddPromise};

// Where the next byte goes. Once something did not fit the buffer is full: nothing more is written, so that a writer looks
// at `full` once, at the end. No Option of the place: it counts when the buffer is full too, since what stands before it is whole.
#[derive(Clone, Copy)]
pub struct Cursor {
    pub at: usize,
    pub full: bool,
}

// Whether n bytes more go into a buffer of m.
#[tactic(auto, unfolding(crate::specs::Promise::takes))]
fn has_room(c: Cursor, m: usize, n: usize) -> bool
    ensures { result ≡ takes c m n }
{
    !c.full && n <= m && c.at <= m - n
}

// Adds bytes as they are.
// Buffer and cursor stay two, and no struct holds both: `AddPromise` speaks of the cursor that comes back and of what the buffer holds then. A struct
// that holds a `&mut` buffer hides both behind its field, and every public promise here and in `cases`, which docs/PROMISES.md names, would change.
#[tactic(auto, unfolding(crate::specs::Promise::takes, octets::specs::Place::placed))]
pub fn add(out: &mut [u8], c: Cursor, s: &[u8]) -> Cursor
    ensures { AddPromise out.old c s.now result out.new }
{
    if !has_room(c, out.len(), s.len()) {
        return Cursor { full: true, ..c };
    }
    octets::put(out, c.at, s);
    Cursor {
        at: c.at + s.len(),
        ..c
    }
}

// The character of a digit below 16.
#[tactic(auto, unfolding(crate::specs::Digits::digit))]
fn spell_digit(d: u8) -> u8
    requires { d < 16 }
    ensures { result ≡ digit d }
{
    if d < 10 { 48 + d } else { 87 + d }
}

// Puts n in decimal at the end of the twenty bytes, which any u64 fits, and answers where it starts. By hand, as hex below: std's `fmt` writes
// numbers too, but no promise of std tells the bytes that it writes, and `AddPromise` tells each.
fn put_decimal(out: &mut [u8; 20], n: u64) -> usize
    ensures { (result ≤ length out.new) × (drop result out.new ≡ decimal n) }
{
    let mut at: usize = 20;
    let mut rest = n;
    // No `for`: how many digits there are shows only as they are made.
    while 10 <= rest {
        at -= 1;
        out[at] = spell_digit((rest % 10) as u8);
        rest /= 10;
    }
    at -= 1;
    out[at] = spell_digit(rest as u8);
    at
}

// Adds a number in decimal.
pub fn decimal(out: &mut [u8], c: Cursor, n: u64) -> Cursor
    ensures { AddPromise out.old c (decimal n) result out.new }
{
    let mut text = [0u8; 20];
    let from = put_decimal(&mut text, n);
    add(out, c, &text[from..])
}

// Puts bytes in hex where they are known to fit.
#[tactic(auto, using(crate::proofs::Writing::hex_turn, octets::proofs::Place::pasted_none))]
fn put_hex(out: &mut [u8], at: usize, s: &[u8])
    requires { at + 2 * length s.now ≤ length out.old }
    ensures { out.new ≡ pasted out.old at (hex s.now) }
{
    for (i, b) in s.iter().enumerate() {
        out[at + 2 * i] = spell_digit(*b / 16);
        out[at + 2 * i + 1] = spell_digit(*b % 16);
    }
}

// Adds bytes in hex, two digits each.
#[tactic(auto, using(crate::proofs::Writing::length_hex), unfolding(crate::specs::Promise::takes))]
pub fn hex(out: &mut [u8], c: Cursor, s: &[u8]) -> Cursor
    ensures { AddPromise out.old c (hex s.now) result out.new }
{
    let n = 2 * s.len();
    if !has_room(c, out.len(), n) {
        return Cursor { full: true, ..c };
    }
    put_hex(out, c.at, s);
    Cursor { at: c.at + n, ..c }
}

// Adds a number as eight hex digits.
#[tactic(auto, using(crate::proofs::Writing::hex8_be, crate::proofs::Writing::add_of))]
pub fn hex8(out: &mut [u8], c: Cursor, n: u32) -> Cursor
    ensures { AddPromise out.old c (hex8 n) result out.new }
{
    hex(out, c, &octets::be::<4>(u64::from(n)))
}
