// HMAC-SHA1 (RFC 2104) as a running value.
ghost use Rattle.std.specs.Prelude.{◌≡◌, ◌+◌, ◌≤◌, [], ◌++◌, length};
ghost use Rattle.hmac.specs.Hmac.{xored};
ghost use Rattle.sha1_block.specs.Block.{sha1_hash};
ghost use Rattle.running.specs.Hash.{pad};
ghost use Rattle.running.specs.Mac.{key_block_of, key_blocks_of, mac_after, mac_taken, mac_running, mac_digest, mac_count};
ghost use Rattle.running.specs.Promise.{limit, inner_limit};
ghost use Rattle.sha1_hmac.specs.View.{mac_state_of, hashed_of};
ghost use Rattle.sha1_hmac.specs.Answers.{BegunPromise, MacFedPromise, MacEndPromise, HmacPromise};

use crate::{Hashed, LIMIT, Sha1};
use octets::put;
use refusal::Refusal;
use sha1_block::{Chain, blocks, bytes, start};

// The inner hash is given the key's block besides the message.
const INNER_LIMIT: usize = LIMIT + 64;

// The inner hash, the outer one after its key block, and the blocks compressed for the key and for that block.
#[derive(Clone, Copy)]
pub struct Sha1Hmac {
    inner: Sha1,
    outer: Chain,
    blocks: u32,
}

// A key as one block, and the blocks compressed to make it.
#[derive(Clone, Copy)]
struct KeyBlock {
    block: [u8; 64],
    blocks: u32,
}

// A short key with zeros behind it, or a long key's hash with zeros behind it.
fn make_key_block(key: &[u8]) -> KeyBlock
    requires { length key.now ≤ limit }
    ensures { (result.block ≡ key_block_of sha1_hash key.now) × (result.blocks ≡ key_blocks_of sha1_hash key.now) }
{
    if key.len() <= 64 {
        return KeyBlock {
            block: crate::fill_block(&[], key),
            blocks: 0,
        };
    }
    let short = Sha1::new().absorb(key).close();
    KeyBlock {
        block: crate::fill_block(&[], &short.digest),
        blocks: short.blocks,
    }
}

// Each byte of a block xored with x.
fn mask_block(block: [u8; 64], x: u8) -> [u8; 64]
    ensures { result ≡ xored x block }
{
    std::array::from_fn(|i| block[i] ^ x)
}

// The state that a key leaves.
#[tactic(auto, using(running::proofs::Macs::begin_law, sha1_block::proofs::Laws::sha1_sized))]
fn begin(key: &[u8]) -> Sha1Hmac
    requires { length key.now ≤ limit }
    ensures { mac_state_of result ≡ mac_after sha1_hash key.now [] }
{
    let k = make_key_block(key);
    let ipad = mask_block(k.block, 0x36);
    let opad = mask_block(k.block, 0x5c);
    let inner = Sha1 {
        h: blocks(start(), &ipad),
        buf: [0u8; 64],
        len: 64,
        blocks: 1,
    };
    Sha1Hmac {
        inner,
        outer: blocks(start(), &opad),
        blocks: k.blocks.wrapping_add(1),
    }
}

// The outer hash's last block: a code and the padding of 84 bytes.
fn make_last_block(digest: [u8; 20]) -> [u8; 64]
    ensures { result ≡ digest ++ pad (64 + sha1_hash.size) }
{
    let mut tail = [0u8; 64];
    tail[20] = 0x80;
    tail[62] = 2;
    tail[63] = 160;
    put(&mut tail, 0, &digest);
    tail
}

impl Sha1Hmac {
    // HMAC under a key, before any byte of the message; 37 for a key that is too long.
    #[tactic(auto, using(running::proofs::Promised::within, running::proofs::Promised::past))]
    pub fn new(key: &[u8]) -> Result<Sha1Hmac, Refusal>
        ensures { BegunPromise key.now result }
    {
        if LIMIT < key.len() {
            return Err(Refusal::TooLongToHash);
        }
        Ok(begin(key))
    }

    // HMAC after the piece s, or refusal 37.
    #[tactic(auto, using(running::proofs::Promised::say_yes, running::proofs::Promised::say_no))]
    pub fn feed(self, s: &[u8]) -> Result<Sha1Hmac, Refusal>
        ensures { MacFedPromise self s.now result }
    {
        if !crate::fits_limit(self.inner.len, s.len(), INNER_LIMIT) {
            return Err(Refusal::TooLongToHash);
        }
        Ok(self.absorb(s))
    }

    // The code; 37 for a state that says it was given too much.
    #[tactic(auto, using(running::proofs::Promised::within, running::proofs::Promised::past))]
    pub fn finalize(self) -> Result<Hashed, Refusal>
        ensures { MacEndPromise self result }
    {
        if INNER_LIMIT < self.inner.len as usize {
            return Err(Refusal::TooLongToHash);
        }
        Ok(self.close())
    }

    // The blocks compressed so far, those of the key among them.
    #[tactic(auto, unfolding(running::specs::Mac::mac_running))]
    pub fn blocks(self) -> u32
        ensures { result ≡ mac_running (mac_state_of self) }
    {
        self.blocks.wrapping_add(self.inner.blocks)
    }

    // HMAC after the piece s, which the limit lets in.
    #[tactic(auto, using(running::proofs::Macs::mac_absorb_law, sha1_block::proofs::Laws::sha1_sized))]
    fn absorb(self, s: &[u8]) -> Sha1Hmac
        requires { length s.now ≤ inner_limit }
        ensures { mac_state_of result ≡ mac_taken sha1_hash (mac_state_of self) s.now }
    {
        Sha1Hmac {
            inner: self.inner.absorb(s),
            ..self
        }
    }

    // The code: the inner one in the outer hash's last block.
    fn close(self) -> Hashed
        ensures { hashed_of result ≡ (mac_digest sha1_hash (mac_state_of self), mac_count (mac_state_of self)) }
    {
        let code = self.inner.close();
        let last = make_last_block(code.digest);
        Hashed {
            digest: bytes(blocks(self.outer, &last)),
            blocks: self.blocks.wrapping_add(code.blocks).wrapping_add(1),
        }
    }
}

// HMAC-SHA1 of s under a key in one call.
pub fn hmac(key: &[u8], s: &[u8]) -> Result<Hashed, Refusal>
    ensures { HmacPromise key.now s.now result }
{
    if LIMIT < key.len() || LIMIT < s.len() {
        return Err(Refusal::TooLongToHash);
    }
    Ok(begin(key).absorb(s).close())
}
