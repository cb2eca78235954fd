// SHA-1 (FIPS 180-4) as a running value: bytes go in, the new hash comes back.
#![tactic(auto)]

ghost use Rattle.std.specs.Prelude.{◌≡◌, ◌+◌, ◌*◌, ◌%◌, ◌<◌, ◌≤◌, [], ◌++◌, length, nat_le};
ghost use Rattle.octets.specs.Number.{be};
ghost use Rattle.octets.specs.Place.{pasted};
ghost use Rattle.sha1_block.specs.Block.{sha1_hash};
ghost use Rattle.running.specs.Running.{room, taken, digest_of, count_of, after};
ghost use Rattle.running.specs.Promise.{inner_limit};
ghost use Rattle.sha1_hmac.specs.View.{state_of, hashed_of};
ghost use Rattle.sha1_hmac.specs.Answers.{FedPromise, EndPromise, HashPromise};

use octets::put;
use refusal::Refusal;
use sha1_block::{Chain, blocks, bytes, start};

pub mod mac;

pub use mac::{Sha1Hmac, hmac};

// More bytes than this, all pieces together, are refused.
pub const LIMIT: usize = 1048576;

// The blocks compressed so far are counted in `blocks`. There is no heap to hold the bytes that wait: they are the first `len % 64` of `buf`, and
// the others are zero.
// No ghost field bounds `len`, though `finalize` could then not fail: the end refuses a state past the limit (docs/RULES.md, 3.10; docs/DECISIONS.md,
// H10), promises hold for every value of the fields, and so the counts are wrapping sums (H3). `len % 64` is written out where it is used: a method
// for it would need a clause that says the same again, and the promises of those who call it speak of `len % 64`.
#[derive(Clone, Copy)]
pub struct Sha1 {
    h: Chain,
    buf: [u8; 64],
    len: u32,
    blocks: u32,
}

// A code, and the blocks compressed for it.
#[derive(Clone, Copy)]
pub struct Hashed {
    pub digest: [u8; 20],
    pub blocks: u32,
}

// The bytes that wait, then s, then zeros.
fn fill_block(waiting: &[u8], s: &[u8]) -> [u8; 64]
    requires { length waiting.now + length s.now ≤ 64 }
    ensures { result ≡ room (waiting.now ++ s.now) }
{
    let mut b = [0u8; 64];
    put(&mut b, 0, waiting);
    put(&mut b, waiting.len(), s);
    b
}

// b with the number of bits of `len` bytes in its last eight.
fn put_length(mut b: [u8; 64], len: u32) -> [u8; 64]
    ensures { result ≡ pasted b 56 (be 8 (len * 8)) }
{
    put(&mut b, 56, &octets::be::<8>(u64::from(len) * 8));
    b
}

// Whether n bytes more than `len` are at most `most`.
fn fits_limit(len: u32, n: usize, most: usize) -> bool
    ensures { result ≡ nat_le (len + n) most }
{
    n <= most && (len as usize) <= most - n
}

impl Sha1 {
    // The hash before any byte.
    #[tactic(auto, unfolding(running::specs::Running::after, running::specs::Hash::runs, octets::specs::Place::filled))]
    pub fn new() -> Sha1
        ensures { state_of result ≡ after sha1_hash [] }
    {
        Sha1 {
            h: start(),
            buf: [0u8; 64],
            len: 0,
            blocks: 0,
        }
    }

    // The hash after s, or refusal 37.
    #[tactic(auto, using(running::proofs::Promised::say_yes, running::proofs::Promised::say_no))]
    pub fn update(self, s: &[u8]) -> Result<Sha1, Refusal>
        ensures { FedPromise self s.now result }
    {
        if !fits_limit(self.len, s.len(), LIMIT) {
            return Err(Refusal::TooLongToHash);
        }
        Ok(self.absorb(s))
    }

    // The hash's twenty bytes; 37 for a state that says it was given too much.
    #[tactic(auto, using(running::proofs::Promised::within, running::proofs::Promised::past))]
    pub fn finalize(self) -> Result<Hashed, Refusal>
        ensures { EndPromise self result }
    {
        if LIMIT < self.len as usize {
            return Err(Refusal::TooLongToHash);
        }
        Ok(self.close())
    }

    // The blocks compressed so far.
    pub fn blocks(self) -> u32
        ensures { result ≡ (state_of self).blocks }
    {
        self.blocks
    }

    // s behind bytes that wait, where no block becomes full.
    #[tactic(auto, using(running::proofs::Takes::append_law))]
    fn append(self, s: &[u8]) -> Sha1
        requires { self.len % 64 + length s.now < 64 }
        ensures { state_of result ≡ taken sha1_hash (state_of self) s.now }
    {
        let fill = (self.len % 64) as usize;
        Sha1 {
            buf: fill_block(&self.buf[..fill], s),
            len: self.len.wrapping_add(s.len() as u32),
            ..self
        }
    }

    // s behind bytes that wait, where the block becomes full.
    fn complete_block(self, s: &[u8]) -> Sha1
        requires { self.len % 64 + length s.now ≡ 64 }
        ensures { state_of result ≡ taken sha1_hash (state_of self) s.now }
    {
        let fill = (self.len % 64) as usize;
        let b = fill_block(&self.buf[..fill], s);
        Sha1 {
            h: blocks(self.h, &b),
            buf: [0u8; 64],
            len: self.len.wrapping_add(s.len() as u32),
            blocks: self.blocks.wrapping_add(1),
        }
    }

    // s where no byte waits: its blocks are compressed where they lie, and only the rest is copied.
    fn absorb_blocks(self, s: &[u8]) -> Sha1
        requires { (self.len % 64 ≡ 0) × (length s.now ≤ inner_limit) }
        ensures { state_of result ≡ taken sha1_hash (state_of self) s.now }
    {
        let n = s.len() / 64;
        Sha1 {
            h: blocks(self.h, s),
            buf: fill_block(&[], &s[n * 64..]),
            len: self.len.wrapping_add(s.len() as u32),
            blocks: self.blocks.wrapping_add(n as u32),
        }
    }

    // The hash after s. That s is within the limit no type says: the limit is on all pieces together, and each call tests it once.
    fn absorb(self, s: &[u8]) -> Sha1
        requires { length s.now ≤ inner_limit }
        ensures { state_of result ≡ taken sha1_hash (state_of self) s.now }
    {
        let fill = (self.len % 64) as usize;
        if fill == 0 {
            return self.absorb_blocks(s);
        }
        let free = 64 - fill;
        if s.len() < free {
            return self.append(s);
        }
        self.complete_block(&s[..free]).absorb_blocks(&s[free..])
    }

    // The hash's end: padding and length go in.
    fn close(self) -> Hashed
        ensures { hashed_of result ≡ (digest_of sha1_hash (state_of self), count_of (state_of self)) }
    {
        let fill = (self.len % 64) as usize;
        let marked = fill_block(&self.buf[..fill], &[0x80]);
        if fill < 56 {
            let last = put_length(marked, self.len);
            let count = self.blocks.wrapping_add(1);
            return Hashed {
                digest: bytes(blocks(self.h, &last)),
                blocks: count,
            };
        }
        let h = blocks(self.h, &marked);
        let last = put_length([0u8; 64], self.len);
        Hashed {
            digest: bytes(blocks(h, &last)),
            blocks: self.blocks.wrapping_add(2),
        }
    }
}

// SHA-1 of s in one call.
#[tactic(auto, using(running::proofs::Promised::past, running::proofs::Fed::hashed_whole))]
pub fn hash(s: &[u8]) -> Result<Hashed, Refusal>
    ensures { HashPromise s.now result }
{
    if LIMIT < s.len() {
        return Err(Refusal::TooLongToHash);
    }
    Ok(Sha1::new().absorb(s).close())
}
