// Prints what the readers and writers of messages answer: the Rust's own cases, then rows of cases, each over every value of one
// byte or over every length. A row is groups `from-to=number`, 0 for accepted, then `v` where the value told is the case itself,
// or a colon and the value where it is another one that is not 0.
#![tactic(auto)]

mod readers;
mod rows;
mod writers;

use readers::Message;
use rows::Row;
use std::io;
use writers::Writer;

const STATUSES: [(&str, Row); 3] = [
    ("open response, status", Row::Byte(Message::Open, 1)),
    ("message 2, status", Row::Byte(Message::Two, 1)),
    ("message 4, status", Row::Byte(Message::Four, 1)),
];

const LENGTHS: [(&str, Row); 12] = [
    ("open response, length", Row::Length(Message::Open)),
    ("message 2, length", Row::Length(Message::Two)),
    ("message 4, length", Row::Length(Message::Four)),
    ("username, length", Row::Length(Message::Name)),
    ("open request, room", Row::Room(Writer::Request(Some(3)))),
    ("message 1, no name, room", Row::Room(Writer::One(0))),
    ("message 1, name of 4, room", Row::Room(Writer::One(4))),
    ("message 1, name of 16, room", Row::Room(Writer::One(16))),
    (
        "message 1, name length 17, room",
        Row::Room(Writer::One(17)),
    ),
    ("message 3, code of 20, room", Row::Room(Writer::Three(20))),
    ("message 3, code of 32, room", Row::Room(Writer::Three(32))),
    ("message 3 declining, room", Row::Room(Writer::Declined)),
];

const RESERVED: [(&str, Row); 14] = [
    ("open response, byte 3", Row::Byte(Message::Open, 3)),
    ("open response, byte 13", Row::Byte(Message::Open, 13)),
    ("open response, byte 14", Row::Byte(Message::Open, 14)),
    ("open response, byte 25", Row::Byte(Message::Open, 25)),
    ("open response, byte 35", Row::Byte(Message::Open, 35)),
    ("message 2, byte 2", Row::Byte(Message::Two, 2)),
    ("message 2, byte 3", Row::Byte(Message::Two, 3)),
    ("message 4, byte 2", Row::Byte(Message::Four, 2)),
    ("message 4, byte 3", Row::Byte(Message::Four, 3)),
    ("block, byte 1", Row::BlockByte(1, 1)),
    ("block, byte 2", Row::BlockByte(1, 2)),
    ("block, byte 5", Row::BlockByte(1, 5)),
    ("block, byte 6", Row::BlockByte(1, 6)),
    ("block, byte 7", Row::BlockByte(1, 7)),
];

const BLOCKS: [(&str, Row); 14] = [
    ("block, type", Row::BlockByte(1, 0)),
    ("block, length byte", Row::BlockByte(1, 3)),
    ("block of type 0, code", Row::BlockByte(0, 4)),
    ("block of type 1, code", Row::BlockByte(1, 4)),
    ("block of type 2, code", Row::BlockByte(2, 4)),
    ("open response, type at 12", Row::Byte(Message::Open, 12)),
    ("open response, type at 20", Row::Byte(Message::Open, 20)),
    ("open response, type at 28", Row::Byte(Message::Open, 28)),
    (
        "open response, length byte at 15",
        Row::Byte(Message::Open, 15),
    ),
    (
        "open response, length byte at 23",
        Row::Byte(Message::Open, 23),
    ),
    (
        "open response, length byte at 31",
        Row::Byte(Message::Open, 31),
    ),
    ("open response, code at 16", Row::Byte(Message::Open, 16)),
    ("open response, code at 24", Row::Byte(Message::Open, 24)),
    ("open response, code at 32", Row::Byte(Message::Open, 32)),
];

const FIELDS: [(&str, Row); 13] = [
    ("open response, tag", Row::Byte(Message::Open, 0)),
    ("open response, level", Row::Byte(Message::Open, 2)),
    ("open response, console id", Row::Byte(Message::Open, 4)),
    ("open response, system id", Row::Byte(Message::Open, 8)),
    ("message 2, tag", Row::Byte(Message::Two, 0)),
    ("message 2, id", Row::Byte(Message::Two, 4)),
    ("message 4, tag", Row::Byte(Message::Four, 0)),
    ("message 4, id", Row::Byte(Message::Four, 4)),
    ("username, byte 0", Row::Byte(Message::Name, 0)),
    ("username, byte 15", Row::Byte(Message::Name, 15)),
    ("username of 17, byte 0", Row::Byte(Message::LongName, 0)),
    ("username of 17, byte 15", Row::Byte(Message::LongName, 15)),
    ("username of 17, byte 16", Row::Byte(Message::LongName, 16)),
];

fn main(rt: HostRuntime) -> io::Result<()> {
    readers::show_cases(&rt)?;
    writers::show_cases(&rt)?;
    rows::show(&rt, &STATUSES)?;
    rows::show(&rt, &LENGTHS)?;
    rows::show(&rt, &RESERVED)?;
    rows::show(&rt, &BLOCKS)?;
    rows::show(&rt, &FIELDS)
}
