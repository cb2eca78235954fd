// One packet, read or written many times over, for counting instructions (tests/cost, docs/COST.md). Standard input is a letter, `r` for
// reading, `o` for reading once or `w` for writing; a digit, 0, 1 or 2 for a payload of 7, 64 or 1,024 bytes; then a byte for each turn.
#![tactic(auto)]

ghost use Rattle.std.specs.Prelude.{◌≡◌, ◌<◌, ◌≤◌, IfOk, length, take};
ghost use Rattle.std.specs.Io.KnownBytes.{Consumes, IsAtEnd};

use arrivals::Arrivals;
use frame::{Confidentiality, Integrity, PayloadType, Read, SubState};
use keys::Keys;
use std::io;

// Room for the longest payload and for its packet.
const ROOM: usize = 1100;

// What the turns found: the lengths of all packets or payloads, and the last byte of each, added up; where packets are read once, with
// the two numbers of each record. Every turn is in it, so that the compiler can leave none out.
#[derive(Clone, Copy, Default)]
struct Found {
    lengths: usize,
    ends: usize,
}

impl Found {
    // With two numbers more.
    fn add(self, length: usize, end: usize) -> Found {
        Found {
            lengths: self.lengths.wrapping_add(length),
            ends: self.ends.wrapping_add(end),
        }
    }

    // With a packet or payload more, the first `len` bytes of `s`.
    fn add_made(self, s: &[u8], len: usize) -> Found {
        if len == 0 || s.len() < len {
            return self;
        }
        self.add(len, usize::from(s[len - 1]))
    }
}

fn make_session() -> SubState {
    SubState {
        keys: Keys::from_sik([0x5A; 20]),
        confidentiality: Confidentiality::AesCbc128,
        integrity: Integrity::HmacSha1_96,
    }
}

// The bytes 0, 1, 2 and on, and again from 0 after 255.
fn fill(s: &mut [u8]) {
    for (i, byte) in s.iter_mut().enumerate() {
        *byte = (i % 256) as u8;
    }
}

// Writes the packet and answers its length, 0 where it was refused. No Option: `add_made` passes over what has no bytes, so each caller would only
// make a 0 of None again.
fn write_packet(s: SubState, payload: &[u8], out: &mut [u8]) -> usize {
    let iv = [7; 16];
    let written = frame::write_payload(
        s,
        PayloadType::IpmiMessage,
        0x0A0B0C0D,
        1,
        payload,
        iv,
        out,
    );
    written.unwrap_or(0)
}

// The payload's length, 0 where the packet was refused, as in `write_packet`.
fn find_length(r: Read) -> usize {
    r.answer.map_or(0, |a| a.len)
}

// Reads a copy of the packet and answers the payload's length, 0 where it was refused. Session, packet and copy stay three arguments, as the calls
// that are counted take them.
fn read_packet(s: SubState, packet: &[u8], copy: &mut [u8]) -> usize {
    octets::put(copy, 0, packet);
    find_length(frame::read_payload(s, copy))
}

fn repeat_write(s: SubState, payload: &[u8], out: &mut [u8], turns: usize) -> Found {
    let mut f = Found::default();
    for _ in 0..turns {
        let n = write_packet(s, payload, out);
        f = f.add_made(out, n);
    }
    f
}

fn repeat_read(s: SubState, packet: &[u8], copy: &mut [u8], turns: usize) -> Found {
    let mut f = Found::default();
    for _ in 0..turns {
        let n = read_packet(s, packet, copy);
        f = f.add_made(frame::payload(copy, true, n), n);
    }
    f
}

// A new record: the turns are too few to make it another. The compiler cannot know that, and so leaves out no check of a packet's number.
fn make_record(turns: usize) -> Arrivals {
    let zero = (turns / 0x100000000) as u32;
    Arrivals {
        highest: zero,
        seen: zero,
    }
}

// What was found before, and a copy of the packet more, read once: its payload and the record after it.
fn add_read_once(
    before: Found,
    s: SubState,
    arrivals: Arrivals,
    packet: &[u8],
    copy: &mut [u8],
) -> Found {
    octets::put(copy, 0, packet);
    let r = once::read_payload(s, arrivals, copy);
    let n = find_length(r.read);
    before
        .add_made(frame::payload(copy, true, n), n)
        .add(r.arrivals.highest as usize, r.arrivals.seen as usize)
}

fn repeat_read_once(s: SubState, packet: &[u8], copy: &mut [u8], turns: usize) -> Found {
    let arrivals = make_record(turns);
    let mut f = Found::default();
    for _ in 0..turns {
        f = add_read_once(f, s, arrivals, packet, copy);
    }
    f
}

fn run_write(payload: &[u8], turns: usize) -> Found {
    repeat_write(make_session(), payload, &mut [0; ROOM], turns)
}

// The packet is what was written of `out`, and its copy has as many bytes. Which turns are run is a flag: a function passed in would need a
// `requires` that it may be called, and only `Verb::run` calls this.
fn run_read(payload: &[u8], turns: usize, once: bool) -> Found {
    let s = make_session();
    let mut out = [0; ROOM];
    let mut copy = [0; ROOM];
    let n = write_packet(s, payload, &mut out);
    if n > ROOM {
        return Found::default();
    }
    let (packet, copy) = (&out[..n], &mut copy[..n]);
    if once {
        repeat_read_once(s, packet, copy, turns)
    } else {
        repeat_read(s, packet, copy, turns)
    }
}

fn spell_digit(n: usize) -> u8 {
    b'0' + (n % 10) as u8
}

// A number in eight digits, so that writing it costs the same whatever it is.
fn print(rt: &impl Print, label: &[u8], n: usize) -> io::Result<()> {
    let high = n / 10000;
    let digits = [
        spell_digit(high / 1000),
        spell_digit(high / 100),
        spell_digit(high / 10),
        spell_digit(high),
        spell_digit(n / 1000),
        spell_digit(n / 100),
        spell_digit(n / 10),
        spell_digit(n),
    ];
    rt.write_all(label)?;
    rt.write_all(&digits)
}

// What is done in each turn, and how the input and the output call it.
#[derive(Clone, Copy)]
enum Verb {
    Read,
    ReadOnce,
    Write,
}

impl Verb {
    fn find(letter: u8) -> Option<Verb> {
        match letter {
            b'r' => Some(Verb::Read),
            b'o' => Some(Verb::ReadOnce),
            b'w' => Some(Verb::Write),
            _ => None,
        }
    }

    fn name(self) -> &'static [u8] {
        match self {
            Verb::Read => b"read",
            Verb::ReadOnce => b"read once",
            Verb::Write => b"write",
        }
    }

    fn run(self, payload: &[u8], turns: usize) -> Found {
        match self {
            Verb::Read => run_read(payload, turns, false),
            Verb::ReadOnce => run_read(payload, turns, true),
            Verb::Write => run_write(payload, turns),
        }
    }
}

// The payload's length for a digit, 0 where there is none for it. No Option: with one the compiler knows that a payload is never empty, and
// leaves out a part of the writing that is to be counted (32 instructions a turn).
fn find_size(digit: u8) -> usize
    ensures { result ≤ 1024 }
{
    match digit {
        b'0' => 7,
        b'1' => 64,
        b'2' => 1024,
        _ => 0,
    }
}

// Verb, payload and turns are no struct: out of one the compiler no longer knows how long a payload can be, and 11 instructions a turn of
// writing come in that were not counted before.
fn tell(rt: &impl Print, verb: Verb, payload: &[u8], turns: usize) -> io::Result<()> {
    let f = verb.run(payload, turns);
    rt.write_all(verb.name())?;
    print(rt, b" turns ", turns)?;
    print(rt, b" lengths ", f.lengths)?;
    print(rt, b" ends ", f.ends)?;
    rt.write_all(b"\n")
}

// Whether the input says what to do, and then does it; the payload is the beginning of `bytes`.
fn run(rt: &impl Print, given: &[u8], bytes: &[u8]) -> io::Result<bool> {
    let [letter, digit, turns @ ..] = given else {
        return Ok(false);
    };
    let Some(verb) = Verb::find(*letter) else {
        return Ok(false);
    };
    let size = find_size(*digit);
    if size == 0 || bytes.len() < size {
        return Ok(false);
    }
    tell(rt, verb, &bytes[..size], turns.len())?;
    Ok(true)
}

// Goes on after a short read, until the input ends or there is no more room, and answers how many bytes were read: they stand at the
// room's start. The loop stays: a read says how far it came, and std's whole reads say too little of the room after an error. `report` has a copy,
// and no library hands it out: a public call must promise every byte that it is lent, and what a reader leaves behind its bytes is its own.
fn read_full<R: io::Read>(input: &mut R, room: &mut [u8]) -> io::Result<usize>
    ensures bound { IfOk result (λ n. n ≤ length room.new) }
    ensures bytes { IfOk result (λ n.
        Consumes (R.remaining input.old) (R.remaining input.new) (take n room.new)) }
    ensures end { IfOk result (λ n. n < length room.new → IsAtEnd (R.remaining input.new)) }
{
    let mut done = 0;
    while done < room.len() {
        let n = input.read(&mut room[done..])?;
        if n == 0 {
            break;
        }
        done += n;
    }
    Ok(done)
}

fn main(rt: HostRuntime) -> io::Result<()> {
    let mut input = [0; 4096];
    let n = read_full(&mut rt.stdin(), &mut input)?;
    let mut bytes = [0; ROOM];
    fill(&mut bytes);
    if !run(&rt, &input[..n], &bytes)? {
        rt.write_all(b"bad input\n")?;
    }
    Ok(())
}
