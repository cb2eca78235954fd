// AES with a key of 128 bits (FIPS 197): key expansion, the cipher and the inverse cipher of one block.
#![tactic(auto)]

ghost use Rattle.std.specs.Prelude.{◌≡◌, ℕ, ◌+◌, ◌/◌, ◌<◌};
ghost use Rattle.octets.specs.Tab.{tab};
ghost use Rattle.aes.specs.State.{at, shift_rows, unshift_rows, mix_row, unmix_row, mix_columns, unmix_columns, add_round_key};
ghost use Rattle.aes.specs.Cipher.{cipher, inv_cipher};
ghost use Rattle.aes.specs.Key.{key_expansion};
ghost use Rattle.aes.specs.Schedule.{keys_of};
ghost use Rattle.aes.specs.Turn.{next_key};

use sbox::{inv_sub_bytes, sub_bytes, xtime};
use std::array;

// The eleven round keys, one after the other: 176 bytes in a row, as the definitions of specs/ have them, where byte i of round key n is byte
// 16 n + i. Eleven arrays would spare the code its sums of indexes, and want laws of joined rows in the proofs.
#[derive(Clone, Copy)]
pub struct Aes128 {
    pub keys: [u8; 176],
}

// Row r is turned left by r places. A block has its bytes column by column: byte i = 4 c + r comes from 4 (c + r) + r, which is 5 i modulo 16.
fn shift_rows(s: [u8; 16]) -> [u8; 16]
    ensures { result ≡ shift_rows s }
{
    array::from_fn(|i| s[5 * i % 16])
}

// Row r is turned right by r places: 13 is the inverse of 5 modulo 16. The two stay two, a line each: each has a definition of its own to keep.
fn inv_shift_rows(t: [u8; 16]) -> [u8; 16]
    ensures { result ≡ unshift_rows t }
{
    array::from_fn(|i| t[13 * i % 16])
}

// The first row of a matrix by which a column is multiplied; its other rows are turns of it. a, b, c and d are the four bytes of a column, as FIPS 197
// writes a row.
trait Row {
    ghost product: { ℕ → ℕ → ℕ → ℕ → ℕ };

    fn times(a: u8, b: u8, c: u8, d: u8) -> u8
        ensures { result ≡ product a b c d };
}

// {02} a + {03} b + c + d.
struct MixRow;

impl Row for MixRow {
    ghost product = { mix_row };

    fn times(a: u8, b: u8, c: u8, d: u8) -> u8 {
        xtime(a ^ b) ^ b ^ (c ^ d)
    }
}

// {0e} a + {0b} b + {0d} c + {09} d, by three doublings.
struct UnmixRow;

impl Row for UnmixRow {
    ghost product = { unmix_row };

    fn times(a: u8, b: u8, c: u8, d: u8) -> u8 {
        let e = xtime(a ^ b ^ (c ^ d));
        let f = xtime(e ^ (a ^ c));
        xtime(f ^ (a ^ b)) ^ (b ^ (c ^ d))
    }
}

// Each column times a matrix. Written out: made by `array::from_fn` from the column that a byte stands in, the sixteen are not
// unrolled, and a block costs six times the instructions.
fn times_columns<R: Row>(s: [u8; 16]) -> [u8; 16]
    ensures { result ≡ tab 16 (λ i. R.product (at s i (i / 4)) (at s (i + 1) (i / 4)) (at s (i + 2) (i / 4)) (at s (i + 3) (i / 4))) }
{
    let [
        s0,
        s1,
        s2,
        s3,
        s4,
        s5,
        s6,
        s7,
        s8,
        s9,
        s10,
        s11,
        s12,
        s13,
        s14,
        s15,
    ] = s;
    [
        R::times(s0, s1, s2, s3),
        R::times(s1, s2, s3, s0),
        R::times(s2, s3, s0, s1),
        R::times(s3, s0, s1, s2),
        R::times(s4, s5, s6, s7),
        R::times(s5, s6, s7, s4),
        R::times(s6, s7, s4, s5),
        R::times(s7, s4, s5, s6),
        R::times(s8, s9, s10, s11),
        R::times(s9, s10, s11, s8),
        R::times(s10, s11, s8, s9),
        R::times(s11, s8, s9, s10),
        R::times(s12, s13, s14, s15),
        R::times(s13, s14, s15, s12),
        R::times(s14, s15, s12, s13),
        R::times(s15, s12, s13, s14),
    ]
}

// Each column times the matrix of MixColumns.
#[tactic(auto, unfolding(crate::specs::State::mix_columns))]
fn mix_columns(s: [u8; 16]) -> [u8; 16]
    ensures { result ≡ mix_columns s }
{
    times_columns::<MixRow>(s)
}

// Each column times the inverse matrix.
#[tactic(auto, unfolding(crate::specs::State::unmix_columns))]
fn inv_mix_columns(s: [u8; 16]) -> [u8; 16]
    ensures { result ≡ unmix_columns s }
{
    times_columns::<UnmixRow>(s)
}

// The sum with round key n of those in w.
fn add_round_key(w: &[u8; 176], n: usize, s: [u8; 16]) -> [u8; 16]
    requires { n < 11 }
    ensures { result ≡ add_round_key w.now n s }
{
    array::from_fn(|i| s[i] ^ w[16 * n + i])
}

// The round key after k, by the round's constant. Written out: as a loop, `n[i] ^= n[i - 4]` over a copy of k, it is shorter, but wants an invariant
// that says which bytes are new.
fn make_next_key(k: [u8; 16], rc: u8) -> [u8; 16]
    ensures { result ≡ next_key k rc }
{
    let t = sub_bytes(k);
    let a0 = k[0] ^ (t[13] ^ rc);
    let a1 = k[1] ^ t[14];
    let a2 = k[2] ^ t[15];
    let a3 = k[3] ^ t[12];
    let b0 = k[4] ^ a0;
    let b1 = k[5] ^ a1;
    let b2 = k[6] ^ a2;
    let b3 = k[7] ^ a3;
    let c0 = k[8] ^ b0;
    let c1 = k[9] ^ b1;
    let c2 = k[10] ^ b2;
    let c3 = k[11] ^ b3;
    let d0 = k[12] ^ c0;
    let d1 = k[13] ^ c1;
    let d2 = k[14] ^ c2;
    let d3 = k[15] ^ c3;
    [
        a0, a1, a2, a3, b0, b1, b2, b3, c0, c1, c2, c3, d0, d1, d2, d3,
    ]
}

impl Aes128 {
    // The key expansion.
    pub fn new(key: [u8; 16]) -> Aes128
        ensures { keys_of result ≡ key_expansion key }
    {
        let mut keys = [0u8; 176];
        octets::put(&mut keys, 0, &key);
        let mut k = key;
        let mut rc: u8 = 1;
        for n in 0..10 {
            k = make_next_key(k, rc);
            rc = xtime(rc);
            octets::put(&mut keys, 16 * (n + 1), &k);
        }
        Aes128 { keys }
    }

    // The cipher of one block. It takes the key by value: `&self` would be another public signature, and the promises of the crates above
    // would speak of what is lent.
    pub fn encrypt_block(self, block: [u8; 16]) -> [u8; 16]
        ensures { result ≡ cipher (keys_of self) block }
    {
        let w = self.keys;
        let mut t = add_round_key(&w, 0, block);
        for n in 1..10 {
            t = add_round_key(&w, n, mix_columns(shift_rows(sub_bytes(t))));
        }
        add_round_key(&w, 10, shift_rows(sub_bytes(t)))
    }

    // The inverse cipher of one block.
    pub fn decrypt_block(self, block: [u8; 16]) -> [u8; 16]
        ensures { result ≡ inv_cipher (keys_of self) block }
    {
        let w = self.keys;
        let mut t = add_round_key(&w, 10, block);
        for n in (1..10).rev() {
            t = inv_mix_columns(add_round_key(&w, n, inv_sub_bytes(inv_shift_rows(t))));
        }
        add_round_key(&w, 0, inv_sub_bytes(inv_shift_rows(t)))
    }
}
