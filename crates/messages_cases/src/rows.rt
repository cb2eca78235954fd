// Rows of cases, each in groups of one answer.
use crate::readers;
use crate::readers::Message;
use crate::writers::Writer;
use refusal::Refusal;
use std::io;

// What the cases of a row are: the values of a byte of a message, or of a block of a type; the lengths of a message; the rooms that a
// writer is lent.
#[derive(Clone, Copy)]
pub enum Row {
    Byte(Message, usize),
    BlockByte(u8, usize),
    Length(Message),
    Room(Writer),
}

// The value that goes with an answer, as it is shown: the case itself as `v`.
#[derive(Clone, Copy, PartialEq, Eq)]
enum Value {
    Zero,
    Case,
    Other(usize),
}

// What became of a case: a refusal is shown by its number, accepted as 0, and as 999 a length told that is not the number of bytes changed.
#[derive(Clone, Copy, PartialEq, Eq)]
pub enum End {
    Accepted,
    Refused(u8),
    WrongLength,
}

impl End {
    // As it is shown. No discriminants: `Refused` carries its number.
    fn number(self) -> u16 {
        match self {
            End::Accepted => 0,
            End::Refused(number) => u16::from(number),
            End::WrongLength => 999,
        }
    }
}

// What is shown of a case's answer, and the value.
#[derive(Clone, Copy, PartialEq, Eq)]
pub struct Told {
    end: End,
    value: Value,
}

impl Told {
    pub fn new(n: u8, end: End, value: usize) -> Told {
        let value = match value {
            0 => Value::Zero,
            v if v == usize::from(n) => Value::Case,
            v => Value::Other(v),
        };
        Told { end, value }
    }

    fn of_reader(n: u8, answer: Result<usize, Refusal>) -> Told {
        match answer {
            Ok(value) => Told::new(n, End::Accepted, value),
            Err(r) => Told::new(
                n,
                End::Refused(r.number()),
                usize::from(r.value().unwrap_or(0)),
            ),
        }
    }
}

impl Row {
    // The last case; the first is 0. No discriminants: a row says more than its last case.
    fn last(self) -> u8 {
        match self {
            Row::Byte(_, _) | Row::BlockByte(_, _) => 255,
            Row::Length(_) | Row::Room(_) => 64,
        }
    }

    // The answer to the case n.
    fn answer(self, n: u8) -> Told {
        match self {
            Row::Byte(message, at) => Told::of_reader(n, message.read_with(at, n)),
            Row::BlockByte(ty, at) => Told::of_reader(n, readers::read_block(ty, at, n)),
            Row::Length(message) => Told::of_reader(n, message.read_first(usize::from(n))),
            Row::Room(writer) => writer.tell(n),
        }
    }
}

fn show_group(rt: &impl Print, from: u8, to: u8, told: Told) -> io::Result<()> {
    print!(rt; " {from}")?;
    if from != to {
        print!(rt; "-{to}")?;
    }
    print!(rt; "={}", told.end.number())?;
    match told.value {
        Value::Zero => Ok(()),
        Value::Case => print!(rt; "v"),
        Value::Other(v) => print!(rt; ":{v}"),
    }
}

fn show_row(rt: &impl Print, label: &str, row: Row) -> io::Result<()> {
    print!(rt; "{label}:")?;
    let mut from = 0;
    let mut before = row.answer(0);
    for n in 0..row.last() {
        let told = row.answer(n + 1);
        if told != before {
            show_group(rt, from, n, before)?;
            from = n + 1;
        }
        before = told;
    }
    show_group(rt, from, row.last(), before)?;
    println!(rt)
}

pub fn show(rt: &impl Print, rows: &[(&str, Row)]) -> io::Result<()> {
    for (label, row) in rows {
        show_row(rt, label, *row)?;
    }
    Ok(())
}

// Bytes in hex. `cipher_vectors` has the same three lines and ends the line: a library for them would be no plainer.
pub fn show_hex(rt: &impl Print, s: &[u8]) -> io::Result<()> {
    for b in s {
        print!(rt; "{b:02x}")?;
    }
    Ok(())
}
