// The product by x in the field of FIPS 197, the byte substitution and its inverse. The substitutions are by tables, but
// no promise names a table: each says the rule.
#![tactic(auto)]

ghost use Rattle.std.specs.Prelude.{◌≡◌};
ghost use Rattle.sbox.specs.Field.{xtime};
ghost use Rattle.sbox.specs.Substitution.{sub_byte, unsub_byte, sub_bytes, unsub_bytes};

mod backward;
mod forward;

use backward::INV_SBOX;
use forward::SBOX;

// The product by x: shifted by one place, and where bit 7 was set, reduced; written as specs/ have the definition of FIPS 197, 4.2.
#[tactic(auto, unfolding(crate::specs::Field::xtime))]
pub fn xtime(x: u8) -> u8
    ensures { result ≡ xtime x }
{
    (x % 128 * 2) ^ (x / 128 * 27)
}

// The substitution of a byte.
pub fn sub_byte(x: u8) -> u8
    ensures { result ≡ sub_byte x }
{
    SBOX[usize::from(x)]
}

// The inverse substitution of a byte.
pub fn inv_sub_byte(x: u8) -> u8
    ensures { result ≡ unsub_byte x }
{
    INV_SBOX[usize::from(x)]
}

// The substitution of each byte of a block.
pub fn sub_bytes(s: [u8; 16]) -> [u8; 16]
    ensures { result ≡ sub_bytes s }
{
    s.map(sub_byte)
}

// The inverse substitution of each byte of a block.
pub fn inv_sub_bytes(s: [u8; 16]) -> [u8; 16]
    ensures { result ≡ unsub_bytes s }
{
    s.map(inv_sub_byte)
}
