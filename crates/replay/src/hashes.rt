// The cases of the hash and of the code.
use crate::answer::Answer;
use crate::lent::pick_span;
use cases::{pick_part, read_bytes};
use refusal::Refusal;
use sha1_hmac::{Hashed, Sha1, Sha1Hmac};
use std::num::NonZeroU32;

// What is hashed.
#[derive(Clone, Copy)]
pub enum Summing {
    Data,
    Pieces,
    Coded,
    Zeros,
    CodedZeros,
}

// `sha1 DATA`.
fn hash_data(line: &[u8], buf: &mut [u8]) -> Option<Result<Hashed, Refusal>> {
    let data = read_bytes(line, 1, buf, 0)?;
    Some(sha1_hmac::hash(pick_span(buf, data)))
}

// `hmac KEY DATA`.
fn code_data(line: &[u8], buf: &mut [u8]) -> Option<Result<Hashed, Refusal>> {
    let key = read_bytes(line, 1, buf, 0)?;
    let data = read_bytes(line, 2, buf, key.to)?;
    Some(sha1_hmac::hmac(pick_span(buf, key), pick_span(buf, data)))
}

// `pieces DATA DATA ..`. The first refusal is the answer, and nothing is fed after it.
fn hash_pieces(line: &[u8], buf: &mut [u8]) -> Option<Result<Hashed, Refusal>> {
    let mut hash = Ok(Sha1::new());
    for field in line.split(|b| *b == b' ').skip(1) {
        let piece = read_bytes(field, 0, buf, 0)?;
        hash = hash.and_then(|h| h.update(pick_span(buf, piece)));
    }
    Some(hash.and_then(|h| h.finalize()))
}

// A state that was fed n zeros in pieces of m, the last of the rest; or the refusal of the first piece that is refused.
fn feed_zeros<H, F: Fn(H, &[u8]) -> Result<H, Refusal>>(
    begun: H,
    feed: F,
    n: u32,
    m: NonZeroU32,
) -> Result<H, Refusal>
    requires { F.IsAlwaysCallable feed }
{
    let zeros = [0u8; 65536];
    let m = m.get();
    let mut fed = begun;
    for _ in 0..n / m {
        fed = feed(fed, pick_part(&zeros, 0, m as usize))?;
    }
    feed(fed, pick_part(&zeros, 0, (n % m) as usize))
}

// `zeros N M`.
fn hash_zeros(n: u32, m: NonZeroU32) -> Result<Hashed, Refusal> {
    feed_zeros(Sha1::new(), Sha1::update, n, m)?.finalize()
}

// `hmac-zeros N M`: the same under HMAC with a key of twenty bytes 0B.
fn code_zeros(n: u32, m: NonZeroU32) -> Result<Hashed, Refusal> {
    feed_zeros(Sha1Hmac::new(&[0x0bu8; 20])?, Sha1Hmac::feed, n, m)?.finalize()
}

// N, and M, which is not 0.
fn read_zeros(line: &[u8]) -> Option<(u32, NonZeroU32)> {
    let n = cases::read_decimal(line, 1, 0xffff_ffff)?;
    let m = cases::read_decimal(line, 2, 65536)?;
    Some((n, NonZeroU32::new(m)?))
}

// What a line gives to tell, unless it is bad: `ok DIGEST blocks B`, or the refusal.
pub fn tell_hash(line: &[u8], which: Summing, buf: &mut [u8], a: &mut Answer) -> Option<()> {
    let hashed = match which {
        Summing::Data => hash_data(line, buf)?,
        Summing::Pieces => hash_pieces(line, buf)?,
        Summing::Coded => code_data(line, buf)?,
        Summing::Zeros => {
            let (n, m) = read_zeros(line)?;
            hash_zeros(n, m)
        }
        Summing::CodedZeros => {
            let (n, m) = read_zeros(line)?;
            code_zeros(n, m)
        }
    };
    match hashed {
        Ok(h) => {
            a.say_bytes(b"ok ", &h.digest);
            a.say_blocks(h.blocks);
        }
        Err(r) => {
            a.say_refusal(r);
            a.say_blocks(0);
        }
    }
    Some(())
}
