// The four calls on a step record.
use crate::lent::pick_span;
use crate::numbers::{read_level, read_lookup};
use cases::{read_bytes, read_exact, read_id};
use session::{Asked, Lookup, Record, Stepped};

// A call, with the places in a line of the fields that it takes.
#[derive(Clone, Copy)]
pub enum Call {
    Begin {
        own: usize,
        level: usize,
        name: usize,
        lookup: usize,
    },
    Open {
        opened: usize,
        rm: usize,
    },
    M2 {
        kg: usize,
        password: usize,
        message: usize,
    },
    M4 {
        message: usize,
    },
}

// A closed record: what a Begin leaves that is refused.
pub fn make_closed() -> Record {
    let asked = Asked {
        console: 0,
        level: None,
        lookup: Lookup::NameAndLevel,
    };
    session::begin(asked, b"", &mut [0u8; 1]).state
}

fn read_asked(line: &[u8], own: usize, level: usize, lookup: usize) -> Option<Asked> {
    Some(Asked {
        console: read_id(line, own)?,
        level: read_level(line, level)?,
        lookup: read_lookup(line, lookup)?,
    })
}

// Makes a call with the fields that it takes, and answers what it leaves.
pub fn make_call(
    line: &[u8],
    call: Call,
    state: Record,
    buf: &mut [u8],
    room: &mut [u8],
) -> Option<Stepped> {
    match call {
        Call::Begin {
            own,
            level,
            name,
            lookup,
        } => {
            let asked = read_asked(line, own, level, lookup)?;
            let name = read_bytes(line, name, buf, 0)?;
            Some(session::begin(asked, pick_span(buf, name), room))
        }
        Call::Open { opened, rm } => {
            let opened = read_bytes(line, opened, buf, 0)?;
            let rm = read_exact::<16>(line, rm)?;
            let opened = pick_span(buf, opened);
            Some(session::open_response(state, opened, rm, room))
        }
        Call::M2 {
            kg,
            password,
            message,
        } => {
            let kg = read_bytes(line, kg, buf, 0)?;
            let password = read_bytes(line, password, buf, kg.to)?;
            let message = read_bytes(line, message, buf, password.to)?;
            Some(session::message_2(
                state,
                pick_span(buf, kg),
                pick_span(buf, password),
                pick_span(buf, message),
                room,
            ))
        }
        Call::M4 { message } => {
            let message = read_bytes(line, message, buf, 0)?;
            Some(session::message_4(state, pick_span(buf, message)))
        }
    }
}
