// The reader's calls: a packet that every check lets pass is opened in its own buffer, any other stays as found.
ghost use Rattle.std.specs.Prelude.{◌≡◌, cond, ◌+◌, ◌-◌, ◌%◌, ◌≤◌, length};
ghost use Rattle.octets.specs.Bytes.{Bytes};
ghost use Rattle.octets.specs.Place.{part, pasted};
ghost use Rattle.cbc.specs.Cbc.{cbc_decrypt};
ghost use Rattle.framing.specs.Read.{body_length, read_of, openable, opened, left_of, blocks_of};
ghost use Rattle.framing.specs.Outer.{outer_of, read_datagram_of, left_datagram, blocks_datagram};
ghost use Rattle.suite.specs.Session.{suite_of};
ghost use Rattle.refusal.specs.Answer.{told};
ghost use Rattle.frame.specs.Answers.{ReadPromise};

use reader::Read;
use refusal::Refusal;
use suite::SubState;

// Whether a packet has an encrypted body that lies within it.
#[tactic(auto, unfolding(framing::specs::Read::openable))]
fn is_openable(packet: &[u8]) -> bool
    ensures { result ≡ openable packet.now }
{
    let n = usize::from(octets::load_le2(packet, 10));
    16 <= n && (n - 16) % 16 == 0 && 12 + n <= packet.len()
}

// Whole blocks are never refused. A function of its own, as the writer's `encrypt` is: its caller is told one equation, where cbc's promise
// is a choice by the length.
#[tactic(auto, unfolding(cbc::specs::Promise::whole, refusal::specs::Order::need))]
fn decrypt(key: [u8; 16], iv: [u8; 16], s: &mut [u8])
    requires { length s.old % 16 ≡ 0 }
    ensures { s.new ≡ cbc_decrypt key iv s.old }
{
    cbc::cbc_decrypt(key, iv, s).unwrap();
}

// The part between the IV and the trailer is decrypted in its place.
fn decrypt_body(s: SubState, packet: &mut [u8])
    requires { (16 ≤ body_length packet.old) × ((body_length packet.old - 16) % 16 ≡ 0) × (12 + body_length packet.old ≤ length packet.old) }
    ensures { packet.new ≡ pasted packet.old 28
        ((suite_of s).dec (part packet.old 12 16) (part packet.old 28 (body_length packet.old - 16))) }
{
    let n = usize::from(octets::load_le2(packet, 10));
    let iv = octets::cut(packet, 12);
    let end = 12 + n;
    decrypt(s.keys.aes_key(), iv, &mut packet[28..end]);
}

// Opens a packet in its own buffer. Without AES, and where the packet has no such body, nothing changes. It checks nothing else: a
// packet to open is one that a reading has accepted.
#[tactic(auto, unfolding(framing::specs::Read::openable, framing::specs::Read::opened))]
pub fn open_in_place(s: SubState, packet: &mut [u8])
    ensures { packet.new ≡ cond (openable packet.old) (opened (suite_of s) packet.old) packet.old }
{
    if suite::encrypts(s.confidentiality) && is_openable(packet) {
        decrypt_body(s, packet);
    }
}

// Reads a packet of a session.
pub fn read_payload(s: SubState, packet: &mut [u8]) -> Read
    ensures read_promise { ReadPromise (read_of (suite_of s) packet.old)
        (blocks_of (suite_of s) packet.old) (left_of (suite_of s) packet.old) result packet.new }
    ensures bytes { Bytes packet.old }
{
    let r = reader::read_checked(s, packet);
    if r.answer.is_ok() {
        open_in_place(s, packet);
    }
    r
}

// Whether a datagram begins with the four outer bytes, behind which a packet stands.
#[tactic(auto, unfolding(framing::specs::Outer::outer_of, refusal::specs::Order::need))]
pub fn check_outer(datagram: &[u8]) -> Result<(), Refusal>
    ensures { told result ≡ outer_of datagram.now }
{
    if datagram.len() < 4 {
        return Err(Refusal::NotEnoughData);
    }
    if !datagram.starts_with(&suite::OUTER) {
        return Err(Refusal::NotRmcpForIpmi);
    }
    Ok(())
}

// Reads a datagram: the four outer bytes, then a packet.
#[tactic(auto, unfolding(framing::specs::Outer::read_datagram_of, framing::specs::Outer::blocks_datagram, framing::specs::Outer::left_datagram, framing::specs::Told::shown, refusal::specs::Order::and_then))]
pub fn read_datagram(s: SubState, datagram: &mut [u8]) -> Read
    ensures read_promise { ReadPromise (read_datagram_of (suite_of s) datagram.old)
        (blocks_datagram (suite_of s) datagram.old) (left_datagram (suite_of s) datagram.old) result datagram.new }
    ensures bytes { Bytes datagram.old }
{
    match check_outer(datagram) {
        Err(r) => Read {
            answer: Err(r),
            blocks: 0,
        },
        Ok(()) => read_payload(s, &mut datagram[4..]),
    }
}
