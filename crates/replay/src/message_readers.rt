// The cases of the readers of a message or of an algorithm block, each alone.
use crate::answer::Answer;
use crate::lent::pick_span;
use cases::pick_part;
use messages::open_session::{AlgorithmPayload, OpenSessionResponse};
use messages::rakp::Place;
use messages::rakp_2::RakpMessage2;
use messages::rakp_4::RakpMessage4;
use refusal::Refusal;

#[derive(Clone, Copy)]
pub enum Received {
    Opened,
    Rakp2,
    Rakp4,
}

// `ok auth A`, `ok integ A`, `ok conf A`.
fn tell_payload(block: [u8; 8], a: &mut Answer) -> Result<(), Refusal> {
    match AlgorithmPayload::from_data(block)? {
        AlgorithmPayload::Authentication(x) => a.say_number(b"ok auth ", u32::from(x.code())),
        AlgorithmPayload::Integrity(x) => a.say_number(b"ok integ ", u32::from(x.code())),
        AlgorithmPayload::Confidentiality(x) => a.say_number(b"ok conf ", u32::from(x.code())),
    }
    Ok(())
}

// `ok tag T level L console I system I auth A integ A conf A`.
fn tell_opened(message: &[u8], a: &mut Answer) -> Result<(), Refusal> {
    let r = OpenSessionResponse::from_data(message)?;
    a.say_number(b"ok tag ", u32::from(r.tag));
    a.say_number(b" level ", u32::from(r.level));
    a.say_id(b" console ", r.console);
    a.say_id(b" system ", r.system);
    a.say_number(b" auth ", u32::from(r.authentication.code()));
    a.say_number(b" integ ", u32::from(r.integrity.code()));
    a.say_number(b" conf ", u32::from(r.confidentiality.code()));
    Ok(())
}

// `ok tag T console I`.
fn say_head(a: &mut Answer, tag: u8, console: u32) {
    a.say_number(b"ok tag ", u32::from(tag));
    a.say_id(b" console ", console);
}

// The bytes of the message that a place names.
fn pick_place(message: &[u8], p: Place) -> &[u8] {
    pick_part(pick_part(message, p.at, message.len()), 0, p.len)
}

// `ok tag T console I random HEX guid HEX code HEX`.
fn tell_message2(message: &[u8], a: &mut Answer) -> Result<(), Refusal> {
    let m = RakpMessage2::from_data(message)?;
    say_head(a, m.tag, m.console);
    a.say_bytes(b" random ", &m.random);
    a.say_bytes(b" guid ", &m.guid);
    a.say_bytes(b" code ", pick_place(message, m.code));
    Ok(())
}

// `ok tag T console I value HEX`.
fn tell_message4(message: &[u8], a: &mut Answer) -> Result<(), Refusal> {
    let m = RakpMessage4::from_data(message)?;
    say_head(a, m.tag, m.id);
    a.say_bytes(b" value ", pick_place(message, m.value));
    Ok(())
}

// What was told of a message, or its refusal.
fn end_told(told: Result<(), Refusal>, a: &mut Answer) {
    if let Err(r) = told {
        a.say_refusal(r);
    }
}

// `block DATA`, of eight bytes.
pub fn tell_block(line: &[u8], a: &mut Answer) -> Option<()> {
    let block = cases::read_exact::<8>(line, 1)?;
    end_told(tell_payload(block, a), a);
    Some(())
}

// `opened DATA`, `rakp2 DATA` and `rakp4 DATA`.
pub fn tell_received(line: &[u8], which: Received, buf: &mut [u8], a: &mut Answer) -> Option<()> {
    let data = cases::read_bytes(line, 1, buf, 0)?;
    let message = pick_span(buf, data);
    let told = match which {
        Received::Opened => tell_opened(message, a),
        Received::Rakp2 => tell_message2(message, a),
        Received::Rakp4 => tell_message4(message, a),
    };
    end_told(told, a);
    Some(())
}
