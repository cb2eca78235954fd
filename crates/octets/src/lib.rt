// Lists of bytes as the wire has them: numbers by their bytes, putting bytes at a place, comparing.
#![tactic(auto)]

ghost use Rattle.std.specs.Prelude.{◌≡◌, ◌+◌, ◌<◌, ◌≤◌, length, get_or};
ghost use Rattle.octets.specs.Number.{le, unle, be};
ghost use Rattle.octets.specs.Place.{part, filled, pasted};
ghost use Rattle.octets.specs.Equal.{same};
ghost use Rattle.octets.specs.Promise.{PutPromise};

// A number as N bytes, the low byte first; of a number that needs more, the low N bytes.
// The loop stays: `to_le_bytes` gives eight bytes, not N, and a law would have to say that eight cut short, or with zeros behind them, are N.
pub fn le<const N: usize>(n: u64) -> [u8; N]
    ensures { result ≡ le N n }
{
    let mut b = [0u8; N];
    let mut rest = n;
    for x in &mut b {
        *x = (rest % 256) as u8;
        rest /= 256;
    }
    b
}

// A number as N bytes, the high byte first; of a number that needs more, the low N bytes.
pub fn be<const N: usize>(n: u64) -> [u8; N]
    ensures { result ≡ be N n }
{
    let mut b = le(n);
    b.reverse();
    b
}

// The N bytes from `at` on; bytes past the end count as 0. Where all N are there they are copied at once: a copy whose length is known costs no call.
pub fn cut<const N: usize>(s: &[u8], at: usize) -> [u8; N]
    ensures { result ≡ filled N (part s.now at N) }
{
    let rest = &s[at.min(s.len())..];
    if let Some(whole) = rest.first_chunk::<N>() {
        return *whole;
    }
    let mut b = [0u8; N];
    b[..rest.len()].copy_from_slice(rest);
    b
}

// The number that the two bytes from `at` on say, the low byte first; bytes past the end count as 0. This and the next stay two: their types
// differ, a number of any count of bytes fits no type, and no public call has a `requires`. Of two bytes each case is written out: it costs less
// than to cut them out.
pub fn load_le2(s: &[u8], at: usize) -> u16
    ensures { result ≡ unle (part s.now at 2) }
{
    match &s[at.min(s.len())..] {
        [low, high, ..] => u16::from_le_bytes([*low, *high]),
        [low] => u16::from(*low),
        [] => 0,
    }
}

// The number that the four bytes from `at` on say, the low byte first; bytes past the end count as 0.
pub fn load_le4(s: &[u8], at: usize) -> u32
    ensures { result ≡ unle (part s.now at 4) }
{
    u32::from_le_bytes(cut(s, at))
}

// Puts `src` into `dst` at `at` where all of it fits; else nothing changes and the answer is false.
// Callers that know that it fits let the answer go; it stays, since `PutPromise` of specs/ tells it.
pub fn put(dst: &mut [u8], at: usize, src: &[u8]) -> bool
    ensures { PutPromise dst.old at src.now result dst.new }
{
    if src.len() > dst.len() || at > dst.len() - src.len() {
        return false;
    }
    dst[at..at + src.len()].copy_from_slice(src);
    true
}

// Whether the two are equal. Of two of one length every byte is looked at, wherever the first difference is. What the machine makes of
// that in time nothing here can promise.
pub fn same(a: &[u8], b: &[u8]) -> bool
    ensures { result ≡ same a.now b.now }
{
    if a.len() != b.len() {
        return false;
    }
    let mut d = 0;
    for (x, y) in a.iter().zip(b) {
        d |= x ^ y;
    }
    d == 0
}
