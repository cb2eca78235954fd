// The night desk's story: one power event was logged twice. A console holds an open session and its record of arrivals, the machine's datagrams
// come, some of them twice, late or without a number, and a line tells what became of each. What is printed here was worked out elsewhere
// (tests/night-desk-expected).
#![tactic(auto)]

ghost use Rattle.std.specs.Prelude.{◌≤◌, IfOk, length};

use arrivals::Arrivals;
use frame::{Confidentiality, Integrity, PayloadType, SubState};
use keys::Keys;
use refusal::Refusal;
use std::io;

// No heap: every datagram of the story stands in a room of this fixed length.
const ROOM: usize = 128;

// An open session, and beside it the record of what arrived in it. `exchange` has the same struct: a library for two fields of two programs
// would be no plainer.
#[derive(Clone, Copy)]
struct Held {
    session: SubState,
    arrivals: Arrivals,
}

// The console's session, in which nothing arrived yet.
fn open_session() -> Held {
    Held {
        session: SubState {
            keys: Keys::from_sik([0x51; 20]),
            confidentiality: Confidentiality::AesCbc128,
            integrity: Integrity::HmacSha1_96,
        },
        arrivals: Arrivals::new(),
    }
}

// `taken: TEXT`, the text out of the datagram that was opened.
fn print_taken(rt: &impl Print, session: SubState, datagram: &[u8], len: usize) -> io::Result<()> {
    print!(rt; "taken: ")?;
    match datagram.get(4..) {
        Some(packet) => {
            let encrypted = frame::encrypts(session.confidentiality);
            rt.write_all(frame::payload(packet, encrypted, len))
        }
        None => Ok(()),
    }
}

// `refused R`, and whether the datagram is as it was found.
fn print_refused(rt: &impl Print, why: Refusal, found: &[u8], left: &[u8]) -> io::Result<()> {
    let state = if found == left { "as found" } else { "changed" };
    print!(rt; "refused {}, {state}", why.number())
}

// A datagram of the machine, and the number under which it was sent.
#[derive(Clone, Copy)]
struct Datagram<'a> {
    number: u32,
    bytes: &'a [u8],
}

// The datagram by which the machine sends a text, at the start of the room. Its length stands in two contracts, and in no ghost field: that
// would be a third line, and each reader of the story would have to learn of it.
fn write<'a>(
    session: SubState,
    number: u32,
    text: &[u8],
    room: &'a mut [u8; ROOM],
) -> Result<Datagram<'a>, Refusal>
    ensures { IfOk result (λ d. length d.bytes.now ≤ 128) }
{
    let iv = [(number % 256) as u8; 16];
    let written = frame::write_datagram(
        session,
        PayloadType::IpmiMessage,
        0x0a0b0c0d,
        number,
        text,
        iv,
        room,
    )?;
    Ok(Datagram {
        number,
        bytes: room.get(..written).unwrap_or(&[]),
    })
}

// A datagram arrives: the console reads it out of a copy, tells what became of it, and holds the record after it.
fn read_once(rt: &impl Print, held: Held, d: Datagram<'_>) -> io::Result<Held>
    requires { length d.bytes.now ≤ 128 }
{
    let mut room = [0; ROOM];
    let copy = &mut room[..d.bytes.len()];
    copy.copy_from_slice(d.bytes);
    let o = once::read_datagram(held.session, held.arrivals, copy);
    print!(rt; "number {}: ", d.number)?;
    match o.read.answer {
        Ok(a) => print_taken(rt, held.session, copy, a.len)?,
        Err(why) => print_refused(rt, why, d.bytes, copy)?,
    }
    println!(rt; ", {} of the last 32", o.arrivals.count())?;
    Ok(Held {
        arrivals: o.arrivals,
        ..held
    })
}

// A text that the machine sends, and how often its datagram arrives.
fn send(rt: &impl Print, held: Held, number: u32, text: &[u8], times: usize) -> io::Result<Held> {
    let mut room = [0; ROOM];
    let d = match write(held.session, number, text, &mut room) {
        Ok(d) => d,
        Err(why) => {
            println!(rt; "not sent: {}", why.number())?;
            return Ok(held);
        }
    };
    let mut held = held;
    for _ in 0..times {
        held = read_once(rt, held, d)?;
    }
    Ok(held)
}

fn main(rt: HostRuntime) -> io::Result<()> {
    let held = open_session();
    let held = send(&rt, held, 1, b"power on", 1)?;
    let held = send(&rt, held, 2, b"power down", 2)?;
    let held = send(&rt, held, 4, b"fan ok", 1)?;
    let held = send(&rt, held, 3, b"power up", 2)?;
    let held = send(&rt, held, 40, b"power cycle", 1)?;
    let held = send(&rt, held, 2, b"power down", 1)?;
    let held = send(&rt, held, 8, b"late event", 1)?;
    let held = send(&rt, held, 9, b"late but in time", 1)?;
    send(&rt, held, 0, b"unnumbered", 1)?;
    Ok(())
}
