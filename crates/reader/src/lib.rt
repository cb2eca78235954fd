// Every check of a packet, stage by stage, before a byte changes: each stage answers what its definition says.
#![tactic(auto)]

ghost use Rattle.std.specs.Prelude.{◌≡◌, cond, ◌/◌, ◌%◌, ◌≤◌, ◌<◌, length, take};
ghost use Rattle.refusal.specs.Order.{accept};
ghost use Rattle.running.specs.Promise.{limit};
ghost use Rattle.framing.specs.Read.{head_of, trailer_of, before_trailer, body_in, payload_behind, rest_of};
ghost use Rattle.framing.specs.Read.{read_with, read_of, has_code, blocks_with, blocks_of, Computed};
ghost use Rattle.framing.specs.Packet.{bit};
ghost use Rattle.framing.specs.Told.{counted, shown};
ghost use Rattle.suite.specs.Types.{type_number};
ghost use Rattle.suite.specs.Session.{suite_of};
ghost use Rattle.suite.specs.Told.{stage_told};
ghost use Rattle.reader.specs.Answers.{head_told, read_told, Tells};

use refusal::Refusal;
use suite::{Code, PayloadType, SubState};

mod body;

// What reading a packet finds: type, ids and the payload's length. A length and no slice: the payload is there to be read once the packet
// was opened in its own buffer, which a slice would hold lent; with the length, frame's `payload` finds it.
#[derive(Clone, Copy)]
pub struct Accepted {
    pub ty: PayloadType,
    pub session_id: u32,
    pub session_sequence_number: u32,
    pub len: usize,
}

// The answer, and how many blocks were compressed for the integrity code. No Result of the two: the blocks are told beside a refusal too.
#[derive(Clone, Copy)]
pub struct Read {
    pub answer: Result<Accepted, Refusal>,
    pub blocks: u32,
}

// Session and packet stay two arguments: a stage hands the session on beside a shorter packet, so one value for both would be
// built anew at every stage.

// Whether the flags of a packet say that it ends with a code. For the bit 0x80 the check finds the proof without a function.
fn has_code_bit(flags: u8) -> bool
    ensures { bit result ≡ flags / 64 % 2 }
{
    flags & 0x40 != 0
}

// The checks that need no code: first byte, type, the two bits, the ceiling.
#[tactic(auto, unfolding(framing::specs::Read::head_of, refusal::specs::Order::need))]
fn check_head(s: SubState, packet: &[u8]) -> Result<PayloadType, Refusal>
    ensures { head_told result ≡ head_of (suite_of s) packet.now }
{
    if packet.len() < 10 {
        return Err(Refusal::NotEnoughData);
    }
    if packet[0] != 0x06 {
        return Err(Refusal::NotIpmiV2_0);
    }
    let flags = packet[1];
    let ty = PayloadType::try_from(flags & 0x3f)?;
    if (flags & 0x80 != 0) != suite::encrypts(s.confidentiality) {
        return Err(Refusal::MismatchingEncryptionState);
    }
    if has_code_bit(flags) != suite::carries_code(s.integrity) {
        return Err(Refusal::MismatchingAuthenticationState);
    }
    if packet.len() > suite::find_longest_packet(s) {
        return Err(Refusal::IncorrectPayloadLen);
    }
    Ok(ty)
}

// How many bytes are left before the trailer, given the code that the packet ought to end with.
#[tactic(auto, unfolding(framing::specs::Read::trailer_of, refusal::specs::Order::need))]
fn check_trailer(s: SubState, code: &[u8], packet: &[u8]) -> Result<usize, Refusal>
    ensures { stage_told result ≡ trailer_of (suite_of s) code.now packet.now }
{
    let m = suite::code_len(s.integrity);
    if packet.len() < m {
        return Err(Refusal::IncorrectIntegrityTrailerLen);
    }
    let k = packet.len() - m;
    if !octets::same(&packet[k..], code) {
        return Err(Refusal::AuthCodeMismatch);
    }
    if k < 2 {
        return Err(Refusal::IncorrectIntegrityTrailerLen);
    }
    let next = packet[k - 1];
    if next != 0x07 {
        return Err(Refusal::UnknownNextHeader(next));
    }
    let q = usize::from(packet[k - 2]);
    Ok((k - 2).saturating_sub(q))
}

// Without integrity there is no trailer.
#[tactic(auto, unfolding(framing::specs::Read::before_trailer))]
fn strip_trailer(s: SubState, code: &[u8], packet: &[u8]) -> Result<usize, Refusal>
    ensures { stage_told result ≡ before_trailer (suite_of s) code.now packet.now }
{
    if suite::carries_code(s.integrity) {
        check_trailer(s, code, packet)
    } else {
        Ok(packet.len())
    }
}

// Header and body, once the trailer is off: the payload's length.
#[tactic(auto, unfolding(framing::specs::Read::body_in, framing::specs::Told::counted, refusal::specs::Order::need, refusal::specs::Order::and_then))]
fn check_body(s: SubState, left: &[u8]) -> Result<usize, Refusal>
    ensures { stage_told result ≡ counted (body_in (suite_of s) left.now) }
{
    if left.len() < 12 {
        return Err(Refusal::NotEnoughData);
    }
    let n = usize::from(octets::load_le2(left, 10));
    if n != left.len() - 12 {
        return Err(Refusal::IncorrectPayloadLen);
    }
    body::read_body(s, &left[12..])
}

// The payload's length behind the head, given the code that the packet ought to end with.
#[tactic(auto, unfolding(framing::specs::Read::payload_behind, framing::specs::Told::counted, refusal::specs::Order::and_then))]
fn find_payload(s: SubState, code: &[u8], packet: &[u8]) -> Result<usize, Refusal>
    ensures { stage_told result ≡ counted (payload_behind (suite_of s) code.now packet.now) }
{
    let n = strip_trailer(s, code, packet)?;
    check_body(s, &packet[..n])
}

// All behind the head, given that code.
#[tactic(auto, unfolding(framing::specs::Read::rest_of, framing::specs::Told::shown, framing::specs::Told::counted, refusal::specs::Order::and_then))]
fn read_rest(s: SubState, ty: PayloadType, code: &[u8], packet: &[u8]) -> Result<Accepted, Refusal>
    ensures { read_told result ≡ shown (rest_of (suite_of s) code.now packet.now (type_number ty)) }
{
    let len = find_payload(s, code, packet)?;
    Ok(Accepted {
        ty,
        session_id: octets::load_le4(packet, 2),
        session_sequence_number: octets::load_le4(packet, 6),
        len,
    })
}

// Whether there is a code to compare: packets carry one, and this one is long enough for it.
fn has_code(s: SubState, packet: &[u8]) -> bool
    ensures { result ≡ has_code (suite_of s) packet.now }
{
    suite::carries_code(s.integrity) && suite::code_len(s.integrity) <= packet.len()
}

// The code that a packet ought to end with, if there is one to compare.
fn expect_code(s: SubState, packet: &[u8]) -> Code
    requires { length packet.now ≤ limit }
    ensures { Computed (suite_of s) packet.now (take (suite_of s).m result.code) result.blocks }
{
    if !has_code(s, packet) {
        return Code {
            code: [0u8; suite::DIGEST_LEN],
            blocks: 0,
        };
    }
    let k = packet.len() - suite::code_len(s.integrity);
    suite::make_code(s, &packet[..k])
}

// A packet that its head lets pass: the code is computed, then the rest is checked.
fn read_behind_head(s: SubState, ty: PayloadType, packet: &[u8]) -> Read
    requires { head_of (suite_of s) packet.now ≡ accept (type_number ty) }
    ensures { Tells (read_of (suite_of s) packet.now) (blocks_of (suite_of s) packet.now) result }
{
    let m = suite::code_len(s.integrity);
    let c = expect_code(s, packet);
    Read {
        answer: read_rest(s, ty, &c.code[..m], packet),
        blocks: c.blocks,
    }
}

// Every check of a packet of a session, before a byte changes.
#[tactic(auto, unfolding(framing::specs::Read::read_of, framing::specs::Read::read_with, framing::specs::Read::blocks_of, framing::specs::Read::blocks_with, framing::specs::Read::compares_code, framing::specs::Told::shown, refusal::specs::Order::and_then))]
pub fn read_checked(s: SubState, packet: &[u8]) -> Read
    ensures { Tells (read_of (suite_of s) packet.now) (blocks_of (suite_of s) packet.now) result }
{
    match check_head(s, packet) {
        Err(r) => Read {
            answer: Err(r),
            blocks: 0,
        },
        Ok(ty) => read_behind_head(s, ty, packet),
    }
}

// The blocks that are told, of as many as the code took. This test is made once in a reading, here or where the code is computed;
// `check_trailer` tests the length again, since its refusal comes after the head's.
fn tell_blocks(s: SubState, blocks: u32, packet: &[u8]) -> u32
    ensures { result ≡ cond (has_code (suite_of s) packet.now) blocks 0 }
{
    if has_code(s, packet) { blocks } else { 0 }
}

// The same checks for a caller who has computed the code that the packet ought to end with: it is handed in, with the blocks that
// it took. The two are no `Code`: that holds a whole digest, and the code handed in is any slice.
#[tactic(auto, unfolding(framing::specs::Read::read_with, framing::specs::Read::blocks_with, framing::specs::Read::compares_code, framing::specs::Told::shown, refusal::specs::Order::and_then))]
pub fn read_with_code(s: SubState, code: &[u8], blocks: u32, packet: &[u8]) -> Read
    ensures { Tells (read_with (suite_of s) code.now packet.now)
        (blocks_with (suite_of s) blocks packet.now) result }
{
    match check_head(s, packet) {
        Err(r) => Read {
            answer: Err(r),
            blocks: 0,
        },
        Ok(ty) => Read {
            answer: read_rest(s, ty, code, packet),
            blocks: tell_blocks(s, blocks, packet),
        },
    }
}
