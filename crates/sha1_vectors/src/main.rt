// Prints SHA-1 and HMAC-SHA1 of the standards' examples and of lengths 0 to 200; what is expected comes from elsewhere.
#![tactic(auto)]

ghost use Rattle.std.specs.Prelude.{◌≤◌, length};

use refusal::Refusal;
use sha1_hmac::{Hashed, Sha1, Sha1Hmac};
use std::io;
use text::Cursor;

// The digest in hex, a space, the blocks in decimal, a newline; or the refusal's number.
// sha1_million has the same lines: two programs share no crate but those that both are about, and none of these prints.
fn tell(rt: &impl Print, answer: Result<Hashed, Refusal>) -> io::Result<()> {
    match answer {
        Ok(h) => {
            let mut line = [0u8; 40];
            text::hex(&mut line, Cursor { at: 0, full: false }, &h.digest);
            rt.write_all(&line)?;
            println!(rt; " {}", h.blocks)
        }
        Err(r) => println!(rt; "refused {}", r.number()),
    }
}

// SHA-1 of s in one call.
fn tell_hash(rt: &impl Print, s: &[u8]) -> io::Result<()> {
    print!(rt; "sha1 {} ", s.len())?;
    tell(rt, sha1_hmac::hash(s))
}

// HMAC-SHA1 of s in one call.
fn tell_hmac(rt: &impl Print, key: &[u8], s: &[u8]) -> io::Result<()> {
    print!(rt; "hmac {} {} ", key.len(), s.len())?;
    tell(rt, sha1_hmac::hmac(key, s))
}

// The same two from running values, the bytes in two pieces.
fn hash_pieces(a: &[u8], b: &[u8]) -> Result<Hashed, Refusal> {
    Sha1::new().update(a)?.update(b)?.finalize()
}

fn code_pieces(key: &[u8], a: &[u8], b: &[u8]) -> Result<Hashed, Refusal> {
    Sha1Hmac::new(key)?.feed(a)?.feed(b)?.finalize()
}

fn tell_pieces(rt: &impl Print, key: &[u8], a: &[u8], b: &[u8]) -> io::Result<()> {
    print!(rt; "pieces {} {} ", a.len(), b.len())?;
    tell(rt, hash_pieces(a, b))?;
    tell(rt, code_pieces(key, a, b))
}

// The byte at place i of the messages of the long list.
fn message_byte(i: usize) -> u8 {
    ((i % 256 * 7 + i / 3 % 256) % 256) as u8
}

// The first n bytes: whole, under a key of half the length, and cut at a third.
fn tell_length(rt: &impl Print, m: &[u8], n: usize) -> io::Result<()>
    requires { n ≤ length m.now }
{
    tell_hash(rt, &m[..n])?;
    tell_hmac(rt, &m[..n / 2], &m[..n])?;
    tell_pieces(rt, &m[..n / 2], &m[..n / 3], &m[n / 3..n])
}

fn tell_lengths(rt: &impl Print) -> io::Result<()> {
    let m: [u8; 200] = std::array::from_fn(message_byte);
    for n in 0..=200 {
        tell_length(rt, &m, n)?;
    }
    Ok(())
}

// The seven cases of RFC 2202, section 3.
fn tell_rfc_2202(rt: &impl Print) -> io::Result<()> {
    tell_hmac(rt, &[0x0b; 20], b"Hi There")?;
    tell_hmac(rt, b"Jefe", b"what do ya want for nothing?")?;
    tell_hmac(rt, &[0xaa; 20], &[0xdd; 50])?;
    let key = [
        1, 2, 3, 4, 5, 6, 7, 8, 9, 10, 11, 12, 13, 14, 15, 16, 17, 18, 19, 20, 21, 22, 23, 24, 25,
    ];
    tell_hmac(rt, &key, &[0xcd; 50])?;
    tell_hmac(rt, &[0x0c; 20], b"Test With Truncation")?;
    let long = [0xaa; 80];
    tell_hmac(
        rt,
        &long,
        b"Test Using Larger Than Block-Size Key - Hash Key First",
    )?;
    tell_hmac(
        rt,
        &long,
        b"Test Using Larger Than Block-Size Key and Larger Than One Block-Size Data",
    )
}

fn main(rt: HostRuntime) -> io::Result<()> {
    tell_hash(&rt, b"abc")?;
    tell_hash(
        &rt,
        b"abcdbcdecdefdefgefghfghighijhijkijkljklmklmnlmnomnopnopq",
    )?;
    tell_rfc_2202(&rt)?;
    tell_lengths(&rt)
}
