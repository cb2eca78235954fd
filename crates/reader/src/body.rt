// The body of a packet: an encrypted one is an IV and whole blocks, of which the last hold the pad.
ghost use Rattle.std.specs.Prelude.{◌≡◌, ◌+◌, ◌-◌, ◌%◌, ◌≤◌, ◌<◌, length, take, drop};
ghost use Rattle.octets.specs.Place.{part};
ghost use Rattle.octets.specs.Equal.{same};
ghost use Rattle.aes.specs.Schedule.{keys_of};
ghost use Rattle.framing.specs.Packet.{counting};
ghost use Rattle.framing.specs.Read.{unpadded, decrypted, payload_in};
ghost use Rattle.framing.specs.Told.{counted};
ghost use Rattle.suite.specs.Session.{suite_of};
ghost use Rattle.suite.specs.Told.{stage_told};
ghost use Rattle.reader.specs.Uncbc.{uncbc};

use aes::Aes128;
use refusal::Refusal;
use suite::SubState;

// The block of plain text at `at` of an encrypted body: the inverse cipher of that block, and the block before it added.
fn decrypt_block(w: Aes128, body: &[u8], at: usize) -> [u8; 16]
    requires { (16 ≤ at) × (at % 16 ≡ 0) × (at + 16 ≤ length body.now) }
    ensures { result ≡ part (uncbc (keys_of w) (take 16 body.now) (drop 16 body.now)) (at - 16) 16 }
{
    let plain = w.decrypt_block(octets::cut(body, at));
    cbc::xor_block(plain, octets::cut(body, at - 16))
}

// Whether the p bytes from `a` on are 1, 2, .. p.
fn check_pad(x: &[u8], a: usize, p: usize) -> bool
    requires { (a + p ≤ length x.now) × (p < 256) }
    ensures { result ≡ same (part x.now a p) (counting p) }
{
    x[a..a + p]
        .iter()
        .zip(1..p + 1)
        .all(|(b, i)| usize::from(*b) == i)
}

// The last t bytes of the plain text of an encrypted body; past them zeros. A whole array, since there is no heap for t bytes: the caller,
// who chose t, looks at those alone. Whole blocks are a test of the length here, as in cbc's promise: a name for it would be opened in each proof.
fn decrypt_tail(w: Aes128, body: &[u8], t: usize) -> [u8; 256]
    requires { (length body.now % 16 ≡ 0) × (t % 16 ≡ 0) × (t ≤ 256) × (t + 16 ≤ length body.now) }
    ensures { take t result
        ≡ part (uncbc (keys_of w) (take 16 body.now) (drop 16 body.now)) (length body.now - 16 - t) t }
{
    let mut tail = [0u8; 256];
    let start = body.len() - t;
    for i in 0..t / 16 {
        let b = decrypt_block(w, body, start + 16 * i);
        octets::put(&mut tail, 16 * i, &b);
    }
    tail
}

// What stands before the pad of an encrypted body of whole blocks: the pad is looked at before anything changes.
fn strip_pad(s: SubState, body: &[u8]) -> Result<usize, Refusal>
    requires { (32 ≤ length body.now) × (length body.now % 16 ≡ 0) }
    ensures { stage_told result ≡ counted (unpadded ((suite_of s).dec (take 16 body.now) (drop 16 body.now))) }
{
    let w = Aes128::new(s.keys.aes_key());
    let n = body.len() - 16;
    let last = decrypt_block(w, body, n);
    let p = usize::from(last[15]);
    if n <= p {
        return Err(Refusal::IncorrectConfidentialityTrailerLen);
    }
    let t = (p / 16 + 1) * 16;
    let tail = decrypt_tail(w, body, t);
    if !check_pad(&tail, t - 1 - p, p) {
        return Err(Refusal::InvalidConfidentialityTrailer);
    }
    Ok(n - 1 - p)
}

// An encrypted body: the IV, then whole blocks, at least one.
#[tactic(auto, unfolding(framing::specs::Read::decrypted, framing::specs::Told::counted, refusal::specs::Order::need, refusal::specs::Order::and_then))]
fn read_encrypted(s: SubState, body: &[u8]) -> Result<usize, Refusal>
    ensures { stage_told result ≡ counted (decrypted (suite_of s) body.now) }
{
    if body.len() < 16 {
        return Err(Refusal::NotEnoughData);
    }
    let n = body.len() - 16;
    if n % 16 != 0 {
        return Err(Refusal::NotWholeBlocks);
    }
    if n == 0 {
        return Err(Refusal::IncorrectConfidentialityTrailerLen);
    }
    strip_pad(s, body)
}

// Without AES the body is the payload.
#[tactic(auto, unfolding(framing::specs::Read::payload_in, framing::specs::Told::counted, refusal::specs::Order::and_then))]
pub(crate) fn read_body(s: SubState, body: &[u8]) -> Result<usize, Refusal>
    ensures { stage_told result ≡ counted (payload_in (suite_of s) body.now) }
{
    if suite::encrypts(s.confidentiality) {
        read_encrypted(s, body)
    } else {
        Ok(body.len())
    }
}
