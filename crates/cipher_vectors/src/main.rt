// The vectors of FIPS 197 and SP 800-38A, and random ones from another implementation: what this prints is compared.
#![tactic(auto)]

ghost use Rattle.std.specs.Prelude.{◌%◌, ◌<◌, ◌≡◌, length};
ghost use Rattle.cbc.specs.Cbc.{cbc_encrypt, cbc_decrypt};
ghost use Rattle.cbc.specs.Halves.{handed_on, after_encrypt, after_decrypt};
ghost use Rattle.cipher_vectors.specs.InTwo.{Went, Cut};

use aes::Aes128;
use refusal::Refusal;
use std::io;

// Random keys, each with a random block, from another implementation.
const PAIRS: [([u8; 16], [u8; 16]); 8] = [
    (
        *b"\xf2\x5a\x35\x8a\x4b\x46\xed\x03\x40\x8b\xed\x21\x46\x36\xcf\x29",
        *b"\xa0\xf3\x69\x05\x0c\x66\xe5\xb0\xfd\x96\x07\x30\xe2\x21\x49\x95",
    ),
    (
        *b"\xb7\x2e\x07\x1e\xf1\xab\x00\x0a\xa7\x61\xdb\x94\xc6\x55\x0f\x7c",
        *b"\x4e\x13\xbb\x74\x77\x5b\x4e\x19\x6f\x08\xa5\xef\xa4\x51\x4c\x34",
    ),
    (
        *b"\x09\x4b\x8c\xf4\x81\x4c\xd5\x94\x21\xec\xd1\xd9\xe2\x67\x7f\x6a",
        *b"\xc2\x81\x41\xce\x71\x2f\x02\x39\x96\x38\x88\xac\xf2\x8f\xd4\x9f",
    ),
    (
        *b"\xa9\x79\x4b\x2b\x64\x8d\x01\x27\x16\x36\xcb\x95\x27\x60\x84\xb4",
        *b"\xf6\x37\x71\x7d\x68\xaa\xe3\x69\x3e\xbd\x4f\x7e\x3d\x50\xd7\x8a",
    ),
    (
        *b"\x07\xd6\x25\x8d\x7b\x11\x41\x4d\x6e\x4d\x40\x98\x52\x99\x93\xfc",
        *b"\x4a\xcf\x21\x7b\x64\x6b\x42\x4c\x75\xf6\x7d\xb7\x55\x77\xc9\x13",
    ),
    (
        *b"\x25\xc0\x17\x3e\xcc\xe4\x84\x6a\xc4\x5b\x56\x3d\x19\x7c\x96\x79",
        *b"\xe4\xbb\x99\xd6\x45\xc6\xf0\x7e\xcf\x83\xe2\xa3\xa4\xb0\xa3\x5a",
    ),
    (
        *b"\xa4\xcf\xe8\x30\x48\xa4\x00\x4a\x9f\x70\xfd\xcd\xe8\xe1\x23\x8b",
        *b"\xa9\xcf\x26\x87\x7f\x3a\x4f\xbd\x14\xed\x39\xe0\x76\xc8\x7f\x52",
    ),
    (
        *b"\x9c\x9e\x08\x45\xce\x25\xf4\x57\xcb\x07\xe4\xca\x5e\x21\x3a\x98",
        *b"\x07\x41\x0b\xf9\xce\xcb\xd2\x7f\x51\x17\x5c\xae\xbc\xbe\x0f\x9b",
    ),
];

// The key of FIPS 197, appendices A.1 and B, and of SP 800-38A, whose text and IV these are.
const KEY: [u8; 16] = *b"\x2b\x7e\x15\x16\x28\xae\xd2\xa6\xab\xf7\x15\x88\x09\xcf\x4f\x3c";

const IV: [u8; 16] = *b"\x00\x01\x02\x03\x04\x05\x06\x07\x08\x09\x0a\x0b\x0c\x0d\x0e\x0f";

const TEXT: [u8; 64] = *b"\x6b\xc1\xbe\xe2\x2e\x40\x9f\x96\xe9\x3d\x7e\x11\x73\x93\x17\x2a\
    \xae\x2d\x8a\x57\x1e\x03\xac\x9c\x9e\xb7\x6f\xac\x45\xaf\x8e\x51\
    \x30\xc8\x1c\x46\xa3\x5c\xe4\x11\xe5\xfb\xc1\x19\x1a\x0a\x52\xef\
    \xf6\x9f\x24\x45\xdf\x4f\x9b\x17\xad\x2b\x41\x7b\xe6\x6c\x37\x10";

// The bytes in hexadecimal, as a line. `messages_cases` has the same three lines and goes on behind them: a library for them would be no plainer.
fn show(rt: &impl Print, s: &[u8]) -> io::Result<()> {
    for b in s {
        print!(rt; "{b:02x}")?;
    }
    println!(rt)
}

// The round keys, a line each.
fn show_keys(rt: &impl Print, a: Aes128) -> io::Result<()> {
    for key in a.keys.chunks(16) {
        show(rt, key)?;
    }
    Ok(())
}

// A standard's block, there and back.
fn show_block(rt: &impl Print, key: [u8; 16], p: [u8; 16]) -> io::Result<()> {
    let a = Aes128::new(key);
    let c = a.encrypt_block(p);
    show(rt, &c)?;
    show(rt, &a.decrypt_block(c))
}

// The random blocks, each either way.
fn show_pairs(rt: &impl Print) -> io::Result<()> {
    for (key, b) in &PAIRS {
        let a = Aes128::new(*key);
        show(rt, &a.encrypt_block(*b))?;
        show(rt, &a.decrypt_block(*b))?;
    }
    Ok(())
}

// Fifty keys, each a block that was made before: shows the last key and the last block, and answers both.
fn show_chain<F: Fn(Aes128, [u8; 16]) -> [u8; 16]>(
    rt: &impl Print,
    start: ([u8; 16], [u8; 16]),
    cipher: F,
) -> io::Result<([u8; 16], [u8; 16])>
    requires { F.IsAlwaysCallable cipher }
{
    let (mut k, mut b) = start;
    for _ in 0..50 {
        let c = cipher(Aes128::new(k), b);
        k = b;
        b = c;
    }
    show(rt, &k)?;
    show(rt, &b)?;
    Ok((k, b))
}

fn tell(rt: &impl Print, r: Result<(), Refusal>) -> io::Result<()> {
    match r {
        Ok(()) => println!(rt; "done"),
        Err(e) => println!(rt; "refused {}", e.number()),
    }
}

// All of it, or of a long one the last block.
fn show_end(rt: &impl Print, s: &[u8]) -> io::Result<()> {
    if s.len() <= 272 {
        show(rt, s)
    } else {
        show(rt, &s[s.len() - 16..])
    }
}

// There and back in one go each. Key, IV and bytes stay three arguments here and below, as the two calls of CBC take them.
fn go_there_and_back(rt: &impl Print, key: [u8; 16], iv: [u8; 16], s: &mut [u8]) -> io::Result<()> {
    tell(rt, cbc::cbc_encrypt(key, iv, s))?;
    show_end(rt, s)?;
    tell(rt, cbc::cbc_decrypt(key, iv, s))?;
    show_end(rt, s)
}

// The block that is handed on behind a cipher text of whole blocks.
fn hand_on(iv: [u8; 16], c: &[u8]) -> [u8; 16]
    requires { length c.now % 16 ≡ 0 }
    ensures { result ≡ handed_on iv c.now }
{
    // `== 0`: with `is_empty` the answers that stand for this function no longer prove it.
    if c.len() == 0 {
        return iv;
    }
    octets::cut(c, c.len() - 16)
}

// The two ways stay two functions each: the block is handed on behind the one call and before the other, and one function over both would
// have to say of what it calls, in a `requires`, what these contracts say.

// One go over whole blocks, which are never refused, and the IV of the next: the cipher text is what the go makes. The answer `Ok` is let go:
// `unwrap` would owe a proof for it at each of these four calls, and the contract tells of the bytes already.
fn encrypt_and_hand_on(key: [u8; 16], iv: [u8; 16], s: &mut [u8]) -> [u8; 16]
    requires { length s.old % 16 ≡ 0 }
    ensures { Went (cbc_encrypt key) (after_encrypt key) iv s.old result s.new }
{
    let _ = cbc::cbc_encrypt(key, iv, s);
    hand_on(iv, s)
}

// The same the other way: the cipher text is gone once the go is made, so the block is read first.
fn decrypt_and_hand_on(key: [u8; 16], iv: [u8; 16], s: &mut [u8]) -> [u8; 16]
    requires { length s.old % 16 ≡ 0 }
    ensures { Went (cbc_decrypt key) (after_decrypt key) iv s.old result s.new }
{
    let next = hand_on(iv, s);
    let _ = cbc::cbc_decrypt(key, iv, s);
    next
}

// Whole blocks in two goes, the first over k bytes, are what one call makes of them. Key, IV and k are no struct: the definitions that these
// contracts cite take the three apart. `Cut` is asked where the cut is used: no type says it of a slice and a place in it.
fn encrypt_in_two(key: [u8; 16], iv: [u8; 16], k: usize, s: &mut [u8])
    requires { Cut k s.old }
    ensures { s.new ≡ cbc_encrypt key iv s.old }
{
    let next = encrypt_and_hand_on(key, iv, &mut s[..k]);
    let _ = cbc::cbc_encrypt(key, next, &mut s[k..]);
}

fn decrypt_in_two(key: [u8; 16], iv: [u8; 16], k: usize, s: &mut [u8])
    requires { Cut k s.old }
    ensures { s.new ≡ cbc_decrypt key iv s.old }
{
    let next = decrypt_and_hand_on(key, iv, &mut s[..k]);
    let _ = cbc::cbc_decrypt(key, next, &mut s[k..]);
}

fn show_in_two(
    rt: &impl Print,
    key: [u8; 16],
    iv: [u8; 16],
    k: usize,
    s: &mut [u8],
) -> io::Result<()>
    requires { Cut k s.old }
{
    encrypt_in_two(key, iv, k, s);
    show(rt, s)?;
    decrypt_in_two(key, iv, k, s);
    show(rt, s)
}

// A text of four blocks, there and back in two goes, cut at every block.
fn show_halves(rt: &impl Print, key: [u8; 16], iv: [u8; 16], text: [u8; 64]) -> io::Result<()> {
    let mut s = text;
    for i in 0..=4 {
        show_in_two(rt, key, iv, 16 * i, &mut s)?;
    }
    Ok(())
}

fn fill(s: &mut [u8]) {
    for (i, x) in s.iter_mut().enumerate() {
        *x = ((i % 256 * 7 + i / 256 % 256) % 256) as u8;
    }
}

// CBC over bytes that are made here.
fn run(rt: &impl Print, s: &mut [u8]) -> io::Result<()> {
    fill(s);
    go_there_and_back(
        rt,
        *b"\x22\x2f\xcc\xcf\x28\x9a\xb6\xac\xc0\x4c\xc2\xdd\x94\x4c\xeb\x17",
        *b"\x5a\xe6\x47\x5c\x96\x29\x5e\x5d\xca\x6d\x88\x48\xae\xc7\x84\xe8",
        s,
    )
}

fn run_all(rt: &impl Print) -> io::Result<()> {
    let mut s = [0u8; 4096];
    for n in [0usize, 15, 16, 17, 272, 4096] {
        run(rt, &mut s[..n.min(4096)])?;
    }
    Ok(())
}

fn main(rt: HostRuntime) -> io::Result<()> {
    show_keys(&rt, Aes128::new(KEY))?;
    show_block(
        &rt,
        KEY,
        *b"\x32\x43\xf6\xa8\x88\x5a\x30\x8d\x31\x31\x98\xa2\xe0\x37\x07\x34",
    )?;
    show_block(
        &rt,
        *b"\x00\x01\x02\x03\x04\x05\x06\x07\x08\x09\x0a\x0b\x0c\x0d\x0e\x0f",
        *b"\x00\x11\x22\x33\x44\x55\x66\x77\x88\x99\xaa\xbb\xcc\xdd\xee\xff",
    )?;
    show_pairs(&rt)?;
    let end = show_chain(&rt, PAIRS[0], Aes128::encrypt_block)?;
    show_chain(&rt, end, Aes128::decrypt_block)?;
    let mut s = TEXT;
    go_there_and_back(&rt, KEY, IV, &mut s)?;
    show_halves(&rt, KEY, IV, s)?;
    run_all(&rt)
}
