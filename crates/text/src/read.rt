// Numbers and bytes out of text. What is no number is `None`; what is no bytes in hex, or does not fit, is an `UnhexError`.
ghost use Rattle.std.specs.Prelude.{◌≡◌, true, ◌+◌, ◌*◌, ◌%◌, ◌<◌, ◌≤◌, length};
ghost use Rattle.octets.specs.Place.{pasted};
ghost use Rattle.text.specs.Digits.{worth, digits, pairs};
ghost use Rattle.text.specs.Promise.{number_in, word_in, UnhexPromise};

// Why no bytes were read: the text is none in hex, or they do not fit.
#[derive(Clone, Copy, PartialEq, Eq)]
pub enum UnhexError {
    Bad,
    NoRoom,
}

// The digit that a character is, 16 where it is none.
// No Option: `put_bytes` reads digits that `is_hex` has tested, since a bad text may change nothing, and `unwrap` there would owe a proof at
// each digit. 16 is no digit in any base up to 16, so `read_number` still refuses both kinds of character by one test.
#[tactic(auto, unfolding(crate::specs::Digits::worth))]
fn read_digit(c: u8) -> u8
    ensures { result ≡ worth c }
{
    match c {
        b'0'..=b'9' => c - b'0',
        b'a'..=b'f' => c - b'a' + 10,
        _ => 16,
    }
}

// A number in a base from 2 to 16 that is at most `most`. By hand: std's `from_str_radix` takes a `+` in front and upper-case digits, which are no
// number here (docs/RULES.md, 9.1 to 9.3).
#[tactic(auto, using(crate::proofs::Reading::number_none, crate::proofs::Reading::number_some, crate::proofs::Reading::stop_none, crate::proofs::Reading::stop_over, crate::proofs::Reading::go_on, crate::proofs::Reading::at_end))]
fn read_number(s: &[u8], base: u8, most: u64) -> Option<u64>
    requires { (0 < base) × (base ≤ 16) }
    ensures { result ≡ number_in base most s.now }
{
    if s.is_empty() {
        return None;
    }
    let mut v: u64 = 0;
    for c in s {
        let d = read_digit(*c);
        if base <= d {
            return None;
        }
        let w = v.checked_mul(u64::from(base))?;
        v = w.checked_add(u64::from(d))?;
        if most < v {
            return None;
        }
    }
    Some(v)
}

// A decimal number that is at most `most`.
pub fn undecimal(s: &[u8], most: u64) -> Option<u64>
    ensures { result ≡ number_in 10 most s.now }
{
    read_number(s, 10, most)
}

// Eight hex digits as a number.
#[tactic(auto, using(crate::proofs::Reading::word_value, crate::proofs::Reading::word_bad, crate::proofs::Reading::word_not, crate::proofs::Reading::number_most))]
pub fn unhex8(s: &[u8]) -> Option<u32>
    ensures { result ≡ word_in s.now }
{
    if s.len() != 8 {
        return None;
    }
    let v = read_number(s, 16, 0xffff_ffff)?;
    u32::try_from(v).ok()
}

// Whether each character is a hex digit.
fn is_hex(s: &[u8]) -> bool
    ensures { result ≡ digits 16 s.now }
{
    s.iter().all(|c| read_digit(*c) < 16)
}

// The byte of two hex digits.
fn join_digits(h: u8, l: u8) -> u8
    requires { (worth h < 16) × (worth l < 16) }
    ensures { result ≡ 16 * worth h + worth l }
{
    16 * read_digit(h) + read_digit(l)
}

// Puts the bytes where they are known to fit. Output, place and text stay three arguments here and in the call: a part of the output would hide the
// place that the promise names.
#[tactic(auto, using(crate::proofs::Reading::pair_turn, crate::proofs::Reading::digits_at, crate::proofs::Reading::length_pairs, octets::proofs::Place::pasted_none))]
fn put_bytes(out: &mut [u8], at: usize, s: &[u8])
    requires room { at + length (pairs s.now) ≤ length out.old }
    requires s_even { length s.now % 2 ≡ 0 }
    requires s_digits { digits 16 s.now ≡ true }
    ensures { out.new ≡ pasted out.old at (pairs s.now) }
{
    for i in 0..s.len() / 2 {
        out[at + i] = join_digits(s[2 * i], s[2 * i + 1]);
    }
}

// Reads bytes in hex into `out` at `at`, where all of them fit, and tells how many there are; else nothing changes.
#[tactic(auto, using(crate::proofs::Reading::length_pairs), unfolding(crate::specs::Promise::hexed, octets::specs::Place::placed))]
pub fn unhex(out: &mut [u8], at: usize, s: &[u8]) -> Result<usize, UnhexError>
    ensures { UnhexPromise out.old at s.now result out.new }
{
    if s.len() % 2 != 0 || !is_hex(s) {
        return Err(UnhexError::Bad);
    }
    let n = s.len() / 2;
    if out.len() < n || out.len() - n < at {
        return Err(UnhexError::NoRoom);
    }
    put_bytes(out, at, s);
    Ok(n)
}
