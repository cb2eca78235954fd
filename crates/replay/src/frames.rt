// The cases of packets and datagrams.
use crate::answer::Answer;
use crate::lent::pick_span;
use crate::numbers::{read_byte, read_flag};
use cases::{pick_part, read_bytes, read_exact, read_id};
use frame::{Accepted, Confidentiality, Integrity, PayloadType, Read, SubState};
use keys::Keys;
use refusal::Refusal;

// CONF, INTEG and SIK, the first three fields.
pub fn read_session(line: &[u8]) -> Option<SubState> {
    let confidentiality = match read_flag(line, 1)? {
        false => Confidentiality::None,
        true => Confidentiality::AesCbc128,
    };
    let integrity = match read_flag(line, 2)? {
        false => Integrity::None,
        true => Integrity::HmacSha1_96,
    };
    let sik = read_exact::<20>(line, 3)?;
    Some(SubState {
        keys: Keys::from_sik(sik),
        confidentiality,
        integrity,
    })
}

// Puts the packet that the field k says into the buffer twice, so that what a call changed shows: the first is lent to be changed while the
// second is kept.
pub fn put_twice<'a>(line: &[u8], k: usize, buf: &'a mut [u8]) -> Option<(&'a mut [u8], &'a [u8])> {
    let once = read_bytes(line, k, buf, 0)?;
    read_bytes(line, k, buf, once.to)?;
    let (packet, rest) = buf.split_at_mut_checked(once.to)?;
    Some((packet, pick_part(rest, 0, once.to)))
}

// `ok type T id I seq S payload HEX`.
fn say_packet(a: &mut Answer, p: Accepted, payload: &[u8]) {
    a.say_number(b"ok type ", u32::from(p.ty.number()));
    a.say_id(b" id ", p.session_id);
    a.say_id(b" seq ", p.session_sequence_number);
    a.say_bytes(b" payload ", payload);
}

// What the buffer holds after the call, beside what was lent.
fn say_buffer(a: &mut Answer, lent: &[u8], left: &[u8]) {
    if lent == left {
        a.say(b" buf same");
    } else {
        a.say_bytes(b" buf ", left);
    }
}

// What is told of a packet that was lent to a call and left by it, where it began at `start`.
pub fn tell_packet(
    s: SubState,
    start: usize,
    read: Read,
    lent: &[u8],
    left: &[u8],
    a: &mut Answer,
) {
    match read.answer {
        Ok(p) => {
            let packet = pick_part(left, start, left.len());
            let encrypted = frame::encrypts(s.confidentiality);
            say_packet(a, p, frame::payload(packet, encrypted, p.len));
            say_buffer(a, lent, left);
            a.say_blocks(read.blocks);
        }
        Err(r) => {
            a.say_refusal(r);
            a.say_blocks(read.blocks);
            say_buffer(a, lent, left);
        }
    }
}

// `read CONF INTEG SIK PACKET` and `datagram CONF INTEG SIK DATAGRAM`.
pub fn tell_read<F: Fn(SubState, &mut [u8]) -> Read>(
    line: &[u8],
    start: usize,
    read: F,
    buf: &mut [u8],
    a: &mut Answer,
) -> Option<()>
    requires { F.IsAlwaysCallable read }
{
    let s = read_session(line)?;
    let (packet, kept) = put_twice(line, 4, buf)?;
    let r = read(s, packet);
    tell_packet(s, start, r, kept, packet, a);
    Some(())
}

// Writes the packet that a line asks for: `write CONF INTEG SIK IV TYPE ID SEQ ROOM PAYLOAD` and `wrap ..`.
pub fn write_line<F>(
    line: &[u8],
    write: F,
    buf: &mut [u8],
    room: &mut [u8],
) -> Option<Result<usize, Refusal>>
where
    F: Fn(SubState, PayloadType, u32, u32, &[u8], [u8; 16], &mut [u8]) -> Result<usize, Refusal>,
    requires { F.IsAlwaysCallable write }
{
    let s = read_session(line)?;
    let iv = read_exact::<16>(line, 4)?;
    let ty = PayloadType::try_from(read_byte(line, 5)?).ok()?;
    let id = read_id(line, 6)?;
    let seq = read_id(line, 7)?;
    let payload = read_bytes(line, 9, buf, 0)?;
    Some(write(s, ty, id, seq, pick_span(buf, payload), iv, room))
}
