// The codes by which console and system show that they know the password, and the key from which a session's keys come.
ghost use Rattle.std.specs.Prelude.{◌≡◌, cond, ◌++◌, ◌≤◌, leb, length, map};
ghost use Rattle.refusal.specs.Answer.{told_as};
ghost use Rattle.hmac.specs.Pieces.{joined};
ghost use Rattle.sha1_block.specs.Block.{sha1_hash};
ghost use Rattle.running.specs.Promise.{limit};
ghost use Rattle.running.specs.Given.{GivenPromise};
ghost use Rattle.sha1_hmac.specs.View.{mac_state_of};
ghost use Rattle.sha1_hmac.specs.Answers.{HashedPromise};
ghost use Rattle.sha1_hmac.specs.Hash.{hmac_sha1, hmac_blocks};
ghost use Rattle.keys.specs.Chosen.{absent, key_of};
ghost use Rattle.keys.specs.Codes.{text2, text_sik, text3, value4};
ghost use Rattle.keys.specs.Named.{named_of};

use octets::le;
use refusal::Refusal;
use sha1_hmac::{Hashed, Sha1Hmac};

// The role byte and the user's name: the first `len` of sixteen bytes. A length over 16 counts as 16. There is no heap to hold a name of its own
// length. The name is no Username: `messages` knows no codes, this crate no messages, and N (docs/RULES.md, 5.2) is bytes in both.
#[derive(Clone, Copy)]
pub struct Named {
    pub role: u8,
    pub name: [u8; 16],
    pub len: usize,
}

// The key that makes the SIK: the Kg if one was lent, else the password. No other place chooses between the two.
// That no Kg is lent is said by an empty slice and not by None: refusal 35 counts 0 bytes as absent (docs/DECISIONS.md, E4), so Some of none would
// say it a second time.
pub fn kg<'a>(kg: &'a [u8], password: &'a [u8]) -> &'a [u8]
    ensures { (result.now ≡ key_of kg.now password.now)
        × (result.ref_ptr ≡ cond (absent kg.now) password.entry.ref_ptr kg.entry.ref_ptr) }
{
    if kg.is_empty() { password } else { kg }
}

// HMAC under `key` after the pieces.
fn feed_pieces(key: &[u8], pieces: &[&[u8]]) -> Result<Sha1Hmac, Refusal>
    requires { length (joined (map (λ p. p.now) pieces.now)) ≤ limit }
    ensures { GivenPromise sha1_hash key.now (joined (map (λ p. p.now) pieces.now)) (told_as mac_state_of result) }
{
    let mut mac = Sha1Hmac::new(key)?;
    for piece in pieces {
        mac = mac.feed(piece)?;
    }
    Ok(mac)
}

// The code under `key` of the pieces and, behind them, of role byte, name length and name.
fn make_code(key: &[u8], pieces: &[&[u8]], named: Named) -> Result<Hashed, Refusal>
    requires { length (joined (map (λ p. p.now) pieces.now)) ≤ 1024 }
    ensures { let text = joined (map (λ p. p.now) pieces.now) ++ named_of named in
        HashedPromise (leb (length key.now) limit) (hmac_sha1 key.now text) (hmac_blocks key.now text) result }
{
    let len = named.len.min(16);
    feed_pieces(key, pieces)?
        .feed(&[named.role, len as u8])?
        .feed(&named.name[..len])?
        .finalize()
}

// Message 2's code: that the system knows the password.
#[tactic(auto, using(crate::proofs::Texts::room_2))]
pub fn message_2_code(
    password: &[u8],
    sidm: u32,
    sidc: u32,
    rm: [u8; 16],
    rc: [u8; 16],
    guid: [u8; 16],
    named: Named,
) -> Result<Hashed, Refusal>
    ensures { let text = text2 sidm sidc rm rc guid (named_of named) in
        HashedPromise (leb (length password.now) limit) (hmac_sha1 password.now text) (hmac_blocks password.now text) result }
{
    let sidm = le::<4>(u64::from(sidm));
    let sidc = le::<4>(u64::from(sidc));
    make_code(password, &[&sidm, &sidc, &rm, &rc, &guid], named)
}

// The key from which the session's keys come.
#[tactic(auto, using(crate::proofs::Texts::room_sik))]
pub fn sik(
    key: &[u8],
    password: &[u8],
    rm: [u8; 16],
    rc: [u8; 16],
    named: Named,
) -> Result<Hashed, Refusal>
    ensures { let text = text_sik rm rc (named_of named) in
        HashedPromise (leb (length (key_of key.now password.now)) limit)
        (hmac_sha1 (key_of key.now password.now) text)
        (hmac_blocks (key_of key.now password.now) text) result }
{
    make_code(kg(key, password), &[&rm, &rc], named)
}

// Message 3's code: that the console knows the password.
#[tactic(auto, using(crate::proofs::Texts::room_3))]
pub fn message_3_code(
    password: &[u8],
    rc: [u8; 16],
    sidm: u32,
    named: Named,
) -> Result<Hashed, Refusal>
    ensures { let text = text3 rc sidm (named_of named) in
        HashedPromise (leb (length password.now) limit) (hmac_sha1 password.now text) (hmac_blocks password.now text) result }
{
    let sidm = le::<4>(u64::from(sidm));
    make_code(password, &[&rc, &sidm], named)
}

// Message 4's value: that the system made the same SIK.
pub fn message_4_value(sik: [u8; 20], rm: [u8; 16], sidc: u32, guid: [u8; 16]) -> [u8; 12]
    ensures { result ≡ value4 hmac_sha1 12 sik rm sidc guid }
{
    let sidc = le::<4>(u64::from(sidc));
    let mac = feed_pieces(&sik, &[&rm, &sidc, &guid]).unwrap();
    let code = mac.finalize().unwrap();
    octets::cut::<12>(&code.digest, 0)
}
