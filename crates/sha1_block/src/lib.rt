// One block of SHA-1 (FIPS 180-4, section 6.1.2), and a run of them where they lie in a slice.
#![tactic(auto)]

ghost use Rattle.std.specs.Prelude.{◌≡◌, ◌+◌, ◌-◌, ◌*◌, ◌/◌, ◌<◌, ◌≤◌, length, take};
ghost use Rattle.running.specs.Hash.{runs};
ghost use Rattle.sha1_block.specs.Word.{rotl, word};
ghost use Rattle.sha1_block.specs.Block.{f_t, k_t, words, next, schedule, round, added, compress, sha1_hash};
ghost use Rattle.sha1_block.specs.Turns.{turns};

use octets::be;

// The chaining value; in the rounds, the five working variables.
#[derive(Clone, Copy)]
pub struct Chain {
    a: u32,
    b: u32,
    c: u32,
    d: u32,
    e: u32,
}

// The steps on a Chain are functions and no methods: the public three are, since the pages name them, and `v.do_round(t, w)` says no more.

// The function f_t. FIPS 180-4 gives one for each twenty rounds, by the number of the round: so the number is matched, here and in `k`.
#[tactic(auto, unfolding(crate::specs::Block::f_t))]
fn f(t: usize, x: u32, y: u32, z: u32) -> u32
    ensures { result ≡ f_t t x y z }
{
    match t {
        0..20 => (x & y) ^ (!x & z),
        20..40 => x ^ y ^ z,
        40..60 => (x & y) ^ (x & z) ^ (y & z),
        _ => x ^ y ^ z,
    }
}

// The constant K_t.
#[tactic(auto, unfolding(crate::specs::Block::k_t))]
fn k(t: usize) -> u32
    ensures { result ≡ k_t t }
{
    match t {
        0..20 => 0x5a827999,
        20..40 => 0x6ed9eba1,
        40..60 => 0x8f1bbcdc,
        _ => 0xca62c1d6,
    }
}

// Round t with the word w.
#[tactic(auto, unfolding(crate::specs::Block::round))]
fn do_round(t: usize, w: u32, v: Chain) -> Chain
    ensures { result ≡ round t w v }
{
    let s = v
        .a
        .rotate_left(5)
        .wrapping_add(f(t, v.b, v.c, v.d))
        .wrapping_add(v.e)
        .wrapping_add(k(t))
        .wrapping_add(w);
    Chain {
        a: s,
        b: v.a,
        c: v.b.rotate_left(30),
        d: v.c,
        e: v.d,
    }
}

// Twenty rounds from s on. Four such runs are the eighty: a loop of twenty is unrolled, and `f` and `k` fold away.
#[tactic(auto, using(crate::proofs::Laws::turns_more), unfolding(crate::specs::Turns::turns))]
fn do_twenty_rounds(h: Chain, w: &[u32; 80], s: usize) -> Chain
    requires { s ≤ 60 }
    ensures { result ≡ turns s 20 w.now h }
{
    let mut v = h;
    for t in 0..20 {
        v = do_round(s + t, w[s + t], v);
    }
    v
}

// The sixteen words of the block m.
#[tactic(auto, unfolding(crate::specs::Block::words))]
fn load_block(m: &[u8; 64]) -> [u32; 80]
    ensures { take 16 result ≡ words 16 m.now }
{
    let mut w = [0u32; 80];
    let fours = m.as_chunks::<4>().0;
    for t in 0..16 {
        w[t] = u32::from_be_bytes(fours[t]);
    }
    w
}

// The word W_t from those before it.
fn mix_word(w: &[u32; 80], t: usize) -> u32
    requires { (16 ≤ t) × (t < 80) }
    ensures { result ≡ next w.now t }
{
    (w[t - 3] ^ w[t - 8] ^ w[t - 14] ^ w[t - 16]).rotate_left(1)
}

// The eighty words of the block m.
#[tactic(auto, unfolding(crate::specs::Block::more))]
fn make_schedule(m: &[u8; 64]) -> [u32; 80]
    ensures { result ≡ schedule m.now }
{
    let mut w = load_block(m);
    for t in 16..80 {
        w[t] = mix_word(&w, t);
    }
    w
}

// What the rounds left, added to what they began with.
#[tactic(auto, unfolding(crate::specs::Block::added))]
fn add_chains(h: Chain, v: Chain) -> Chain
    ensures { result ≡ added h v }
{
    Chain {
        a: v.a.wrapping_add(h.a),
        b: v.b.wrapping_add(h.b),
        c: v.c.wrapping_add(h.c),
        d: v.d.wrapping_add(h.d),
        e: v.e.wrapping_add(h.e),
    }
}

// One block.
#[tactic(auto, using(crate::proofs::Laws::whole))]
fn compress_block(h: Chain, m: &[u8; 64]) -> Chain
    ensures { result ≡ compress h m.now }
{
    let w = make_schedule(m);
    let v = do_twenty_rounds(h, &w, 0);
    let v = do_twenty_rounds(v, &w, 20);
    let v = do_twenty_rounds(v, &w, 40);
    let v = do_twenty_rounds(v, &w, 60);
    add_chains(h, v)
}

// The chaining value before the first block.
#[tactic(auto, unfolding(crate::specs::Block::sha1_hash))]
pub fn start() -> Chain
    ensures { result ≡ sha1_hash.first }
{
    Chain {
        a: 0x67452301,
        b: 0xefcdab89,
        c: 0x98badcfe,
        d: 0x10325476,
        e: 0xc3d2e1f0,
    }
}

// All whole blocks of s, compressed where they lie; what is left over at the end is not read.
pub fn blocks(h: Chain, s: &[u8]) -> Chain
    ensures { result ≡ runs sha1_hash.compress (length s.now / 64) h s.now }
{
    s.as_chunks::<64>().0.iter().fold(h, compress_block)
}

// The twenty bytes of a chaining value. Each byte is named: `as_flattened` over five arrays of four lends a slice, of which a second copy would have
// to make the array, and a loop over the chunks of zeros is as long and needs an invariant.
#[tactic(auto, unfolding(crate::specs::Block::sha1_hash))]
pub fn bytes(h: Chain) -> [u8; 20]
    ensures { result ≡ sha1_hash.code h }
{
    let a = be::<4>(u64::from(h.a));
    let b = be::<4>(u64::from(h.b));
    let c = be::<4>(u64::from(h.c));
    let d = be::<4>(u64::from(h.d));
    let e = be::<4>(u64::from(h.e));
    [
        a[0], a[1], a[2], a[3], b[0], b[1], b[2], b[3], c[0], c[1], c[2], c[3], d[0], d[1], d[2],
        d[3], e[0], e[1], e[2], e[3],
    ]
}
