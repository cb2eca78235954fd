// Tells of a list of packets, a line each with a label in front: lengths at every edge, every refusal that can be told, every type,
// the payload's length one off, the longest packet and longer ones. What is printed here was worked out elsewhere
// (tests/packet-expected).
#![tactic(auto)]

use octets::le;
use std::io;
use text::Cursor;

// One byte more than the longest packet.
const ROOM: usize = report::LONGEST + 1;

const ID: u32 = 0x0a0b0c0d;

const SEQ: u32 = 1;

// A label, the packet's first two bytes, how long it says that its payload is, and how many bytes it has.
type Row = (&'static str, [u8; 2], u16, usize);

// Too short for a head, for a header, and just long enough.
const LENGTHS: [Row; 6] = [
    ("empty", [0x06, 0x00], 0, 0),
    ("1 byte", [0x06, 0x00], 0, 1),
    ("9 bytes", [0x06, 0x00], 0, 9),
    ("10 bytes", [0x06, 0x00], 0, 10),
    ("11 bytes", [0x06, 0x00], 0, 11),
    ("12 bytes", [0x06, 0x00], 0, 12),
];

// Which test comes first: what is wrong twice is refused by the earlier one.
const ORDER: [Row; 7] = [
    ("9 bytes, first byte 05", [0x05, 0x00], 0, 9),
    ("10 bytes, first byte 05", [0x05, 0x00], 0, 10),
    ("10 bytes, type 02", [0x06, 0x02], 0, 10),
    ("first byte 05, type 02", [0x05, 0x02], 2, 14),
    ("type 02, both bits", [0x06, 0xc2], 2, 14),
    ("both bits", [0x06, 0xc0], 2, 14),
    ("bit 6, payload 1 less", [0x06, 0x40], 1, 14),
];

// Each test of the head alone.
const HEADS: [Row; 8] = [
    ("first byte 05", [0x05, 0x00], 2, 14),
    ("first byte 07", [0x07, 0x00], 2, 14),
    ("type 02", [0x06, 0x02], 2, 14),
    ("type 0f", [0x06, 0x0f], 2, 14),
    ("type 16", [0x06, 0x16], 2, 14),
    ("type 3f", [0x06, 0x3f], 2, 14),
    ("bit 7", [0x06, 0x80], 2, 14),
    ("bit 6", [0x06, 0x40], 2, 14),
];

// The rules' own packet is the first of these but for its payload, which is not looked at.
const TYPES: [Row; 8] = [
    ("type 00", [0x06, 0x00], 2, 14),
    ("type 01", [0x06, 0x01], 2, 14),
    ("type 10", [0x06, 0x10], 2, 14),
    ("type 11", [0x06, 0x11], 2, 14),
    ("type 12", [0x06, 0x12], 2, 14),
    ("type 13", [0x06, 0x13], 2, 14),
    ("type 14", [0x06, 0x14], 2, 14),
    ("type 15", [0x06, 0x15], 2, 14),
];

// A payload's length that is one off either way, or right in one byte only.
const PAYLOADS: [Row; 9] = [
    ("payload 0, told 1", [0x06, 0x00], 1, 12),
    ("payload 1, told 0", [0x06, 0x00], 0, 13),
    ("payload 1, told 1", [0x06, 0x00], 1, 13),
    ("payload 2, told 1", [0x06, 0x00], 1, 14),
    ("payload 2, told 3", [0x06, 0x00], 3, 14),
    ("payload 2, told 258", [0x06, 0x00], 258, 14),
    ("payload 2, told 512", [0x06, 0x00], 512, 14),
    ("payload 258, told 258", [0x06, 0x00], 258, 270),
    ("payload 258, told 2", [0x06, 0x00], 2, 270),
];

// Where a number gains a digit.
const DIGITS: [Row; 6] = [
    ("payload 9", [0x06, 0x00], 9, 21),
    ("payload 10", [0x06, 0x00], 10, 22),
    ("payload 99", [0x06, 0x00], 99, 111),
    ("payload 100", [0x06, 0x00], 100, 112),
    ("payload 999", [0x06, 0x00], 999, 1011),
    ("payload 1000", [0x06, 0x00], 1000, 1012),
];

// Any values: zeros in front are written, no value is refused.
const IDS: [(&str, u32, u32); 3] = [
    ("ids 0", 0, 0),
    ("ids 1 and 80000000", 1, 0x8000_0000),
    ("ids 89abcdef and ffffffff", 0x89ab_cdef, 0xffff_ffff),
];

// The longest packet is read like any other; a longer one is refused before a byte of it is looked at.
const LONGEST: [Row; 6] = [
    ("4095 bytes", [0x06, 0x00], 4083, 4095),
    ("4096 bytes", [0x06, 0x00], 4084, 4096),
    ("4096 bytes, told 1 less", [0x06, 0x00], 4083, 4096),
    ("4096 bytes, told 1 more", [0x06, 0x00], 4085, 4096),
    ("4097 bytes", [0x06, 0x00], 4085, 4097),
    ("4097 bytes, first byte 05", [0x05, 0x00], 4085, 4097),
];

// The label, and behind it what is told of the packet.
fn say(rt: &impl Print, label: &str, packet: &[u8]) -> io::Result<()> {
    let mut line = [0u8; 128];
    let start = Cursor { at: 0, full: false };
    let a = text::add(&mut line, start, label.as_bytes());
    let b = text::add(&mut line, a, b": ");
    let c = report::tell(packet, &mut line, b);
    rt.write_all(&line[..c.at.min(line.len())])
}

// A packet of `total` bytes: the twelve before its payload, and what stands behind them.
fn say_packet(
    rt: &impl Print,
    (label, head, body, total): Row,
    id: u32,
    seq: u32,
) -> io::Result<()> {
    let mut packet = [0xaau8; ROOM];
    octets::put(&mut packet, 0, &head);
    octets::put(&mut packet, 2, &le::<4>(u64::from(id)));
    octets::put(&mut packet, 6, &le::<4>(u64::from(seq)));
    octets::put(&mut packet, 10, &le::<2>(u64::from(body)));
    say(rt, label, &packet[..total.min(packet.len())])
}

fn say_rows(rt: &impl Print, rows: &[Row]) -> io::Result<()> {
    for row in rows {
        say_packet(rt, *row, ID, SEQ)?;
    }
    Ok(())
}

fn main(rt: HostRuntime) -> io::Result<()> {
    say_rows(&rt, &LENGTHS)?;
    say_rows(&rt, &ORDER)?;
    say_rows(&rt, &HEADS)?;
    say_rows(&rt, &TYPES)?;
    say_rows(&rt, &PAYLOADS)?;
    say_rows(&rt, &DIGITS)?;
    for (label, id, seq) in &IDS {
        say_packet(&rt, (*label, [0x06, 0x00], 0, 12), *id, *seq)?;
    }
    say_rows(&rt, &LONGEST)
}
