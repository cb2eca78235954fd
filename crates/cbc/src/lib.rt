// Cipher block chaining with AES-128 (SP 800-38A), in place.
#![tactic(auto)]

ghost use Rattle.std.specs.Prelude.{◌≡◌, ◌/◌, ◌%◌, length};
ghost use Rattle.aes.specs.Schedule.{keys_of};
ghost use Rattle.cbc.specs.Cbc.{xor_block, encrypt_blocks, decrypt_blocks, cbc_encrypt, cbc_decrypt};
ghost use Rattle.cbc.specs.Promise.{CbcPromise};

use aes::Aes128;
use refusal::Refusal;
use std::array;

// The sum of two blocks, bit by bit. `add_round_key` of aes, below this crate, cannot call it, and adds a block to sixteen of 176 bytes.
pub fn xor_block(a: [u8; 16], b: [u8; 16]) -> [u8; 16]
    ensures { result ≡ xor_block a b }
{
    array::from_fn(|i| a[i] ^ b[i])
}

// Encrypts whole blocks, each chained on the cipher block before it. The two directions stay two functions: which block goes through
// the cipher before it is added, and which is chained on, is all that a turn does. Both go by index: std
// does not say what a slice holds once `as_chunks_mut` has lent its blocks. That the blocks are whole is asked of these two alone in
// this crate, so it has no name.
fn encrypt_blocks(a: Aes128, iv: [u8; 16], s: &mut [u8])
    requires { length s.old % 16 ≡ 0 }
    ensures { s.new ≡ encrypt_blocks (keys_of a) iv (length s.old / 16) s.old }
{
    let n = s.len() / 16;
    let mut v = iv;
    for i in 0..n {
        let b = octets::cut(s, 16 * i);
        v = a.encrypt_block(xor_block(b, v));
        octets::put(s, 16 * i, &v);
    }
}

// Decrypts whole blocks; the cipher block is read before its place is written.
fn decrypt_blocks(a: Aes128, iv: [u8; 16], s: &mut [u8])
    requires { length s.old % 16 ≡ 0 }
    ensures { s.new ≡ decrypt_blocks (keys_of a) iv (length s.old / 16) s.old }
{
    let n = s.len() / 16;
    let mut v = iv;
    for i in 0..n {
        let b = octets::cut(s, 16 * i);
        let p = xor_block(a.decrypt_block(b), v);
        octets::put(s, 16 * i, &p);
        v = b;
    }
}

// Encrypts the lent bytes in their place. This and the next stay two: one function over both would be handed the chain as a closure, and each
// promise would still stand at its own name.
pub fn cbc_encrypt(key: [u8; 16], iv: [u8; 16], s: &mut [u8]) -> Result<(), Refusal>
    ensures { CbcPromise s.old (cbc_encrypt key iv s.old) result s.new }
{
    if s.len() % 16 != 0 {
        return Err(Refusal::NotWholeBlocks);
    }
    encrypt_blocks(Aes128::new(key), iv, s);
    Ok(())
}

// Decrypts the lent bytes in their place.
pub fn cbc_decrypt(key: [u8; 16], iv: [u8; 16], s: &mut [u8]) -> Result<(), Refusal>
    ensures { CbcPromise s.old (cbc_decrypt key iv s.old) result s.new }
{
    if s.len() % 16 != 0 {
        return Err(Refusal::NotWholeBlocks);
    }
    decrypt_blocks(Aes128::new(key), iv, s);
    Ok(())
}
