// Writing a packet: every size is known, and the room tested, before the first byte.
#![tactic(auto)]

ghost use Rattle.std.specs.Prelude.{◌≡◌, true, [], ◌∷◌, ◌++◌, ◌+◌, ◌%◌, ◌≤◌, ◌<◌, length, take, replicate};
ghost use Rattle.octets.specs.Bytes.{Bytes};
ghost use Rattle.octets.specs.Place.{pasted, begun};
ghost use Rattle.suite.specs.Types.{encrypts, type_number};
ghost use Rattle.cbc.specs.Cbc.{cbc_encrypt};
ghost use Rattle.framing.specs.Packet.{header_of, counting, plain_of};
ghost use Rattle.framing.specs.Write.{least_p, least_q, body_size, packet_size, room_of, write_after, longest_payload, our_body, our_pads, ours};
ghost use Rattle.suite.specs.Session.{suite_of};
ghost use Rattle.suite.specs.Told.{stage_told};
ghost use Rattle.writer.specs.Answers.{message_of, WritePromise};
ghost use Rattle.framing.specs.Outer.{write_of, write_datagram_of};

use refusal::Refusal;
use suite::{Confidentiality, PayloadType, SubState};

// What a packet says, and the IV of its body where that is encrypted. Session and output stay arguments beside it: a packet does not say its session,
// and the output is lent in parts.
#[derive(Clone, Copy)]
struct Message<'a> {
    ty: PayloadType,
    id: u32,
    seq: u32,
    payload: &'a [u8],
    iv: [u8; 16],
}

// The least count of pad bytes for whole blocks. This and the next stay two: one for any block would be told the bytes that follow the
// pad too, and each caller would say two numbers in place of none. std's `next_multiple_of` would be handed n + 1, which may pass `usize`.
fn choose_p(n: usize) -> usize
    ensures { result ≡ least_p n }
{
    15 - n % 16
}

// The least count of pad bytes for a multiple of 4.
fn choose_q(n: usize) -> usize
    ensures { result ≡ least_q n }
{
    (6 - n % 4) % 4
}

// How long a body is.
fn measure_body(c: Confidentiality, n: u16) -> usize
    ensures { result ≡ body_size (encrypts c) n }
{
    let n = usize::from(n);
    if suite::encrypts(c) {
        16 + n + choose_p(n) + 1
    } else {
        n
    }
}

fn measure_packet(s: SubState, n: u16) -> usize
    ensures { result ≡ packet_size (suite_of s) n }
{
    let k = 12 + measure_body(s.confidentiality, n);
    if suite::carries_code(s.integrity) {
        k + (choose_q(k) + 2 + suite::code_len(s.integrity))
    } else {
        k
    }
}

// The longest payload that a body can carry.
fn find_longest_payload(c: Confidentiality) -> u16
    ensures { result ≡ longest_payload (encrypts c) }
{
    if suite::encrypts(c) { 65503 } else { 65535 }
}

// The writer's refusals, for a payload of n bytes behind `before` others.
#[tactic(auto, unfolding(framing::specs::Write::room_of, refusal::specs::Order::need))]
fn check_room(s: SubState, n: usize, before: usize, room: usize) -> Result<usize, Refusal>
    requires { before ≤ 4 }
    ensures { stage_told result ≡ room_of (suite_of s) before n room }
{
    let Ok(n) = u16::try_from(n) else {
        return Err(Refusal::PayloadTooLong);
    };
    if find_longest_payload(s.confidentiality) < n {
        return Err(Refusal::EncryptedPayloadTooLong);
    }
    let size = before + measure_packet(s, n);
    if room < size {
        return Err(Refusal::OutputTooShort);
    }
    Ok(size)
}

// The twelve bytes before a body of n bytes.
#[tactic(auto, unfolding(framing::specs::Packet::header_of))]
fn make_header(s: SubState, m: Message, n: usize) -> [u8; 12]
    ensures { result ≡ header_of (suite_of s) (message_of m.entry) n }
{
    let flags = 128 * suite::make_bit(suite::encrypts(s.confidentiality))
        + 64 * suite::make_bit(suite::carries_code(s.integrity))
        + m.ty.number();
    let d = octets::le::<4>(u64::from(m.id));
    let q = octets::le::<4>(u64::from(m.seq));
    let k = octets::le::<2>(n as u64);
    [
        0x06, flags, d[0], d[1], d[2], d[3], q[0], q[1], q[2], q[3], k[0], k[1],
    ]
}

// The pad bytes 1, 2, .. p and their count.
fn put_pad(out: &mut [u8], at: usize, p: usize)
    requires { (p < 16) × (at + p + 1 ≤ length out.old) }
    ensures { out.new ≡ pasted out.old at (counting p ++ (p ∷ [])) }
{
    let mut pad: [u8; 16] = [1, 2, 3, 4, 5, 6, 7, 8, 9, 10, 11, 12, 13, 14, 15, 16];
    pad[p] = p as u8;
    let n = p + 1;
    octets::put(out, at, &pad[..n]);
}

// The integrity pad of q bytes FF, its count and the next header.
fn put_trailer(out: &mut [u8], at: usize, q: usize)
    requires { (q < 4) × (at + q + 2 ≤ length out.old) }
    ensures { out.new ≡ pasted out.old at (replicate q 0xFF ++ (q ∷ 0x07 ∷ [])) }
{
    let mut next = [0xFFu8; 5];
    next[q] = q as u8;
    next[q + 1] = 0x07;
    let n = q + 2;
    octets::put(out, at, &next[..n]);
}

// Whole blocks are never refused. A function of its own, as frame's `decrypt` is: its caller is told one equation, where cbc's promise is
// a choice by the length.
#[tactic(auto, unfolding(cbc::specs::Promise::whole, refusal::specs::Order::need))]
fn encrypt(key: [u8; 16], iv: [u8; 16], s: &mut [u8])
    requires { length s.old % 16 ≡ 0 }
    ensures { s.new ≡ cbc_encrypt key iv s.old }
{
    cbc::cbc_encrypt(key, iv, s).unwrap();
}

// An encrypted body at its place: the IV, then payload, pad and count, encrypted where they stand.
fn write_encrypted(s: SubState, m: Message, out: &mut [u8])
    requires { 12 + body_size true (length m.payload.now) ≤ length out.old }
    ensures { out.new ≡ pasted out.old 12
        (m.entry.iv ++ (suite_of s).enc m.entry.iv (plain_of m.entry.payload.now (least_p (length m.entry.payload.now)))) }
{
    let n = m.payload.len();
    let p = choose_p(n);
    octets::put(out, 12, &m.iv);
    octets::put(out, 28, m.payload);
    put_pad(out, 28 + n, p);
    let end = 28 + n + p + 1;
    encrypt(s.keys.aes_key(), m.iv, &mut out[28..end]);
}

// The body at its place.
#[tactic(auto, unfolding(framing::specs::Write::our_body))]
fn write_body(s: SubState, m: Message, out: &mut [u8])
    requires { 12 + body_size (suite_of s).aes (length m.payload.now) ≤ length out.old }
    ensures { out.new ≡ pasted out.old 12 (our_body (suite_of s) m.entry.payload.now m.entry.iv) }
{
    if suite::encrypts(s.confidentiality) {
        write_encrypted(s, m, out);
    } else {
        octets::put(out, 12, m.payload);
    }
}

// The trailer behind k bytes: pad, count, next header, and the code of everything up to there.
fn write_code(s: SubState, k: usize, out: &mut [u8])
    requires { (k ≤ 65547) × (k + least_q k + 2 + (suite_of s).m ≤ length out.old) }
    ensures { out.new ≡ pasted out.old k (our_pads k ++ (suite_of s).mac (take k out.old ++ our_pads k)) }
{
    let q = choose_q(k);
    put_trailer(out, k, q);
    // where the next header, 07, stands
    let next = k + q + 1;
    let n = next + 1;
    let c = suite::make_code(s, &out[..n]);
    let m = suite::code_len(s.integrity);
    octets::put(out, n, &c.code[..m]);
}

// A packet at the start of an output with room for it.
fn write_packet(s: SubState, m: Message, out: &mut [u8])
    requires { (length m.payload.now ≤ longest_payload (suite_of s).aes) × (packet_size (suite_of s) (length m.payload.now) ≤ length out.old) }
    ensures { out.new ≡ begun (ours (suite_of s) (message_of m.entry) m.entry.iv) out.old }
{
    // at most 65,503 with AES, else 65,535: the room was tested for it
    let n = measure_body(s.confidentiality, m.payload.len() as u16);
    let h = make_header(s, m, n);
    octets::put(out, 0, &h);
    write_body(s, m, out);
    if suite::carries_code(s.integrity) {
        write_code(s, 12 + n, out);
    }
}

// Writes a packet behind up to four other bytes: what is answered is the length of all.
fn write_behind(before: &[u8], s: SubState, m: Message, out: &mut [u8]) -> Result<usize, Refusal>
    requires { length before.now ≤ 4 }
    ensures { WritePromise (write_after before.now (suite_of s) (message_of m.entry) m.entry.iv (length out.old)) out.old result out.new }
{
    let at = before.len();
    let n = check_room(s, m.payload.len(), at, out.len())?;
    octets::put(out, 0, before);
    write_packet(s, m, &mut out[at..]);
    Ok(n)
}

// Writes a packet of a session. The seven stand one by one here and in the next, since the theorems over calls (`WriteSeen` and
// `Follows`, in frame's specs) take a call's arguments by their places.
#[tactic(auto, unfolding(framing::specs::Outer::write_of))]
pub fn write_payload(
    s: SubState,
    ty: PayloadType,
    id: u32,
    seq: u32,
    payload: &[u8],
    iv: [u8; 16],
    out: &mut [u8],
) -> Result<usize, Refusal>
    ensures write_promise { WritePromise (write_of (suite_of s) (record { ty = type_number ty; id = id; seq = seq; payload = payload.now }) iv
        (length out.old)) out.old result out.new }
    ensures bytes { Bytes payload.now }
{
    let m = Message {
        ty,
        id,
        seq,
        payload,
        iv,
    };
    write_behind(&[], s, m, out)
}

// Writes a datagram: the four outer bytes, then a packet.
#[tactic(auto, unfolding(framing::specs::Outer::write_datagram_of))]
pub fn write_datagram(
    s: SubState,
    ty: PayloadType,
    id: u32,
    seq: u32,
    payload: &[u8],
    iv: [u8; 16],
    out: &mut [u8],
) -> Result<usize, Refusal>
    ensures write_promise { WritePromise (write_datagram_of (suite_of s) (record { ty = type_number ty; id = id; seq = seq; payload = payload.now }) iv
        (length out.old)) out.old result out.new }
    ensures bytes { Bytes payload.now }
{
    let m = Message {
        ty,
        id,
        seq,
        payload,
        iv,
    };
    write_behind(&suite::OUTER, s, m, out)
}
