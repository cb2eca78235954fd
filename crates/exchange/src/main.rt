// A whole exchange on fixed bytes, with the rights of a user who is looked up by name only: Begin to the first packet, which the system's own
// keys read back, and the system's answer, which arrives twice and is taken once. What the system sends and what is printed here were worked out
// elsewhere (tests/exchange-expected).
#![tactic(auto)]

use arrivals::Arrivals;
use frame::{PayloadType, SubState};
use keys::Keys;
use keys::state::Named;
use refusal::Refusal;
use session::{Asked, Lookup, Record};
use std::io;
use text::Cursor;

const OPEN_RESPONSE: [u8; 36] = [
    0x00, 0x00, 0x02, 0x00, 0xa4, 0xa3, 0xa2, 0x0a, 0xe0, 0x34, 0x71, 0x4a, 0x00, 0x00, 0x00, 0x08,
    0x01, 0x00, 0x00, 0x00, 0x01, 0x00, 0x00, 0x08, 0x01, 0x00, 0x00, 0x00, 0x02, 0x00, 0x00, 0x08,
    0x01, 0x00, 0x00, 0x00,
];

const MESSAGE_2: [u8; 60] = [
    0x0d, 0x00, 0x00, 0x00, 0xa4, 0xa3, 0xa2, 0x0a, 0x30, 0x31, 0x32, 0x33, 0x34, 0x35, 0x36, 0x37,
    0x38, 0x39, 0x3a, 0x3b, 0x3c, 0x3d, 0x3e, 0x3f, 0x50, 0x51, 0x52, 0x53, 0x54, 0x55, 0x56, 0x57,
    0x58, 0x59, 0x5a, 0x5b, 0x5c, 0x5d, 0x5e, 0x5f, 0x7a, 0x79, 0x47, 0x4a, 0x77, 0x14, 0x9c, 0xe4,
    0xbd, 0xd2, 0x4f, 0xfc, 0xaf, 0x76, 0x10, 0xd2, 0x27, 0x3f, 0x47, 0x52,
];

const MESSAGE_4: [u8; 20] = [
    0x0a, 0x00, 0x00, 0x00, 0xa4, 0xa3, 0xa2, 0x0a, 0x67, 0x01, 0xf2, 0xd8, 0x3e, 0x78, 0x90, 0xd4,
    0x3f, 0x19, 0x97, 0x26,
];

// The system's first datagram, the answer to the console's.
const ANSWER: [u8; 80] = [
    0x06, 0x00, 0xff, 0x07, 0x06, 0xc0, 0xa4, 0xa3, 0xa2, 0x0a, 0x01, 0x00, 0x00, 0x00, 0x30, 0x00,
    0x80, 0x81, 0x82, 0x83, 0x84, 0x85, 0x86, 0x87, 0x88, 0x89, 0x8a, 0x8b, 0x8c, 0x8d, 0x8e, 0x8f,
    0xb6, 0xe0, 0x4f, 0xd1, 0x83, 0x35, 0x4c, 0x37, 0x19, 0xd4, 0xa0, 0xb8, 0x24, 0x43, 0x05, 0xa4,
    0x16, 0xd4, 0xe5, 0x37, 0xfb, 0xa0, 0xa5, 0x40, 0x57, 0xbe, 0xdd, 0x2a, 0xa3, 0x53, 0x2a, 0x34,
    0xff, 0xff, 0x02, 0x07, 0xd8, 0x2f, 0x5a, 0x85, 0xdf, 0xef, 0xb5, 0xf6, 0x0f, 0xb0, 0x7e, 0xf0,
];

const RM: [u8; 16] = [
    0x10, 0x11, 0x12, 0x13, 0x14, 0x15, 0x16, 0x17, 0x18, 0x19, 0x1a, 0x1b, 0x1c, 0x1d, 0x1e, 0x1f,
];

const RC: [u8; 16] = [
    0x30, 0x31, 0x32, 0x33, 0x34, 0x35, 0x36, 0x37, 0x38, 0x39, 0x3a, 0x3b, 0x3c, 0x3d, 0x3e, 0x3f,
];

const IV: [u8; 16] = [
    0x60, 0x61, 0x62, 0x63, 0x64, 0x65, 0x66, 0x67, 0x68, 0x69, 0x6a, 0x6b, 0x6c, 0x6d, 0x6e, 0x6f,
];

// The user's rights and name, as the system knows them: level 2, looked up by name only.
const USER: Named = Named {
    role: 0x12,
    name: *b"nightdesk\x00\x00\x00\x00\x00\x00\x00",
    len: 9,
};

fn print_line(rt: &impl Print, label: &[u8], s: &[u8]) -> io::Result<()> {
    let mut out = [0u8; 512];
    let start = Cursor { at: 0, full: false };
    let a = text::add(&mut out, start, label);
    let b = text::hex(&mut out, a, s);
    let c = text::add(&mut out, b, b"\n");
    match out.get(..c.at) {
        Some(line) => rt.write_all(line),
        None => Ok(()),
    }
}

// A line of the message of `n` bytes at the start of `out`, where there are as many.
fn print_message(rt: &impl Print, label: &[u8], n: usize, out: &[u8]) -> io::Result<()> {
    match out.get(..n) {
        Some(message) => print_line(rt, label, message),
        None => Ok(()),
    }
}

// A line of a refusal's number.
fn print_refusal(rt: &impl Print, label: &[u8], why: Refusal) -> io::Result<()> {
    rt.write_all(label)?;
    println!(rt; "refused {}", why.number())
}

// The console's four steps.
fn open_session(rt: &impl Print) -> io::Result<Record> {
    let mut out = [0u8; 64];
    let kg = [0x77u8; 20];
    let asked = Asked {
        console: 0x0aa2a3a4,
        level: Some(2),
        lookup: Lookup::NameOnly,
    };
    let a = session::begin(asked, b"nightdesk", &mut out);
    print_message(rt, b"request ", a.len, &out)?;
    let b = session::open_response(a.state, &OPEN_RESPONSE, RM, &mut out);
    print_message(rt, b"message 1 ", b.len, &out)?;
    let c = session::message_2(b.state, &kg, b"renderfarm", &MESSAGE_2, &mut out);
    print_message(rt, b"message 3 ", c.len, &out)?;
    let d = session::message_4(c.state, &MESSAGE_4);
    Ok(d.state)
}

// The system's session, from its own SIK.
fn make_system_session() -> Result<SubState, Refusal> {
    let sik = keys::state::sik(&[0x77u8; 20], b"renderfarm", RM, RC, USER)?;
    Ok(SubState {
        keys: Keys::from_sik(sik.digest),
        confidentiality: frame::Confidentiality::AesCbc128,
        integrity: frame::Integrity::HmacSha1_96,
    })
}

// What the system reads of a datagram. The reading stands here as README.md's first example has it.
fn read_back(rt: &impl Print, datagram: &mut [u8]) -> io::Result<()> {
    let label = b"read back ";
    let session = match make_system_session() {
        Ok(session) => session,
        Err(why) => return print_refusal(rt, label, why),
    };
    let r = frame::read_datagram(session, datagram);
    if let Ok(a) = r.answer {
        if let Some(packet) = datagram.get(4..) {
            let encrypted = frame::encrypts(session.confidentiality);
            let payload = frame::payload(packet, encrypted, a.len);
            print_line(rt, label, payload)?;
        }
    }
    if let Err(why) = r.answer {
        print_refusal(rt, label, why)?;
    }
    Ok(())
}

// An open session and the record of what arrived in it, which the console holds together. `night_desk` has the same
// struct: a library for two fields of two programs would be no plainer.
#[derive(Clone, Copy)]
struct Held {
    session: SubState,
    arrivals: Arrivals,
}

impl Held {
    // A session that was just opened starts with a new record.
    fn new(session: SubState) -> Held {
        Held {
            session,
            arrivals: Arrivals::new(),
        }
    }
}

// A line of the payload that was read out of a datagram.
fn print_payload(
    rt: &impl Print,
    label: &[u8],
    session: SubState,
    datagram: &[u8],
    len: usize,
) -> io::Result<()> {
    let encrypted = frame::encrypts(session.confidentiality);
    match datagram.get(4..) {
        Some(packet) => print_line(rt, label, frame::payload(packet, encrypted, len)),
        None => Ok(()),
    }
}

// What the console reads of a datagram that arrives; it then holds the session with the record after it.
fn read_once(rt: &impl Print, label: &[u8], held: Held, datagram: &mut [u8]) -> io::Result<Held> {
    let session = held.session;
    let o = once::read_datagram(session, held.arrivals, datagram);
    match o.read.answer {
        Ok(accepted) => print_payload(rt, label, session, datagram, accepted.len)?,
        Err(why) => print_refusal(rt, label, why)?,
    }
    Ok(Held {
        session,
        arrivals: o.arrivals,
    })
}

// The system's answer arrives at the console, and the same bytes come again.
fn read_answer_twice(rt: &impl Print, console: Held) -> io::Result<()> {
    let mut first = ANSWER;
    let mut again = ANSWER;
    let console = read_once(rt, b"answer ", console, &mut first)?;
    read_once(rt, b"answer again ", console, &mut again)?;
    Ok(())
}

fn print_keys(rt: &impl Print, k: Keys) -> io::Result<()> {
    print_line(rt, b"k1 ", &k.k1)?;
    print_line(rt, b"aes ", &k.aes_key())
}

fn main(rt: HostRuntime) -> io::Result<()> {
    let console = match session::sub_state(open_session(&rt)?) {
        Ok(session) => Held::new(session),
        Err(why) => return print_refusal(&rt, b"session ", why),
    };
    print_keys(&rt, console.session.keys)?;
    let mut out = [0u8; 64];
    let w = frame::write_datagram(
        console.session,
        PayloadType::IpmiMessage,
        0x4a7134e0,
        1,
        b"\x20\x18\xc8\x81\x04\x01\x7a",
        IV,
        &mut out,
    );
    if let Ok(n) = w
        && let Some(datagram) = out.get_mut(..n)
    {
        print_line(&rt, b"datagram ", datagram)?;
        read_back(&rt, datagram)?;
    }
    read_answer_twice(&rt, console)
}
