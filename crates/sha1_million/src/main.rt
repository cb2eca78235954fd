// FIPS 180-4's long example, a million times `a` in uneven pieces; then on to the limit, and one byte past it.
#![tactic(auto)]

ghost use Rattle.std.specs.Prelude.{◌≤◌, ◌<◌};

use refusal::Refusal;
use sha1_hmac::{Hashed, LIMIT, Sha1, Sha1Hmac};
use std::io;
use text::Cursor;

// The digest in hex, a space, the blocks in decimal, a newline; or the refusal's number.
// sha1_vectors has the same lines: two programs share no crate but those that both are about, and none of these prints.
fn tell(rt: &impl Print, answer: Result<Hashed, Refusal>) -> io::Result<()> {
    match answer {
        Ok(h) => {
            let mut line = [0u8; 40];
            text::hex(&mut line, Cursor { at: 0, full: false }, &h.digest);
            rt.write_all(&line)?;
            println!(rt; " {}", h.blocks)
        }
        Err(r) => println!(rt; "refused {}", r.number()),
    }
}

// What was answered, and the blocks that the new state tells; a refusal leaves none.
fn tell_blocks(rt: &impl Print, answer: Result<u32, Refusal>) -> io::Result<()> {
    match answer {
        Ok(blocks) => println!(rt; "taken {blocks}"),
        Err(r) => println!(rt; "refused {} 0", r.number()),
    }
}

// A running value that takes pieces. `update` and `feed` keep their names, which the pages have; in sha1_hmac this trait would be public
// for one loop.
trait Running {
    fn take(self, s: &[u8]) -> Result<Self, Refusal>;
}

impl Running for Sha1 {
    fn take(self, s: &[u8]) -> Result<Sha1, Refusal> {
        self.update(s)
    }
}

impl Running for Sha1Hmac {
    fn take(self, s: &[u8]) -> Result<Sha1Hmac, Refusal> {
        self.feed(s)
    }
}

// The next piece's length: from 1 to 997, never more than what is left.
fn next_piece(turn: usize, left: usize) -> usize
    requires { 0 < left }
    ensures { (0 < result) × (result ≤ left) × (result ≤ 997) }
{
    left.min(1 + turn % 997)
}

// The state after `count` bytes more, in uneven pieces. The loop stays a `while`: how many turns it takes shows only as the pieces are taken.
fn feed<R: Running>(state: R, a: &[u8; 997], count: usize) -> Result<R, Refusal> {
    let mut state = state;
    let mut left = count;
    let mut turn: usize = 0;
    while 0 < left {
        let n = next_piece(turn, left);
        state = state.take(&a[..n])?;
        left -= n;
        turn = (turn + 331) % 997;
    }
    Ok(state)
}

fn main(rt: HostRuntime) -> io::Result<()> {
    let a = [b'a'; 997];
    let million = feed(Sha1::new(), &a, 1000000);
    tell(&rt, million.and_then(Sha1::finalize))?;
    let full = million.and_then(|h| feed(h, &a, LIMIT - 1000000));
    tell(&rt, full.and_then(Sha1::finalize))?;
    tell_blocks(&rt, full.and_then(|h| h.update(b"a")).map(Sha1::blocks))?;
    tell(&rt, full.and_then(Sha1::finalize))?;
    let begun = Sha1Hmac::new(b"Jefe");
    tell_blocks(&rt, begun.map(Sha1Hmac::blocks))?;
    let full = begun.and_then(|m| feed(m, &a, LIMIT));
    tell(&rt, full.and_then(Sha1Hmac::finalize))?;
    tell_blocks(&rt, full.and_then(|m| m.feed(b"a")).map(Sha1Hmac::blocks))?;
    tell(&rt, full.and_then(Sha1Hmac::finalize))
}
