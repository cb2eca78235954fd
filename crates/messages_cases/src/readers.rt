// Cases for the readers. Each message stands in 64 bytes, of which a case lends the first ones; a block is given by value.
ghost use Rattle.std.specs.Prelude.{◌≤◌};

use crate::rows::show_hex;
use messages::open_session::{AlgorithmPayload, OpenSessionResponse};
use messages::rakp::Place;
use messages::rakp_1::Username;
use messages::rakp_2::RakpMessage2;
use messages::rakp_4::RakpMessage4;
use refusal::Refusal;
use std::io;

// What is read.
#[derive(Clone, Copy)]
pub enum Message {
    Open,
    Two,
    Four,
    Name,
    LongName,
}

const OPEN_BYTES: [u8; 64] =
    *b"\0\0\x04\0\xa4\0\0\0\xe0\0\0\0\0\0\0\x08\x01\0\0\0\x01\0\0\x08\x01\0\0\0\x02\0\0\x08\0\0\0\0\0\0\0\0\0\0\0\0\0\0\0\0\0\0\0\0\0\0\0\0\0\0\0\0\0\0\0\0";

const BYTES_2: [u8; 64] =
    *b"\x0d\0\0\0\xa4\0\0\0abcdefghijklmnopABCDEFGHIJKLMNOPqrstuvwxyzQRSTUVWXYZ;,.:";

const BYTES_4: [u8; 64] =
    *b"\x0a\0\0\0\xa4\0\0\0abcdefghijklmnopABCDEFGHIJKLMNOPqrstuvwxyzQRSTUVWXYZ;,.:";

impl Message {
    // The bytes that cases start from.
    fn bytes(self) -> [u8; 64] {
        match self {
            Message::Open => OPEN_BYTES,
            Message::Two => BYTES_2,
            Message::Four => BYTES_4,
            Message::Name | Message::LongName => [b'n'; 64],
        }
    }

    // How many of them are the message: a name may have 16, and the long one has one more. No discriminants: a length is not what a message is.
    fn len(self) -> usize
        ensures { result ≤ 64 }
    {
        match self {
            Message::Open => 36,
            Message::Two => 60,
            Message::Four => 20,
            Message::Name => 16,
            Message::LongName => 17,
        }
    }

    // The tag of a message, the length of a name.
    fn read(self, message: &[u8]) -> Result<usize, Refusal> {
        match self {
            Message::Open => Ok(usize::from(OpenSessionResponse::from_data(message)?.tag)),
            Message::Two => Ok(usize::from(RakpMessage2::from_data(message)?.tag)),
            Message::Four => Ok(usize::from(RakpMessage4::from_data(message)?.tag)),
            Message::Name | Message::LongName => Ok(Username::new(message)?.len),
        }
    }

    // With the byte b at `at`.
    pub fn read_with(self, at: usize, b: u8) -> Result<usize, Refusal> {
        let mut bytes = self.bytes();
        bytes[at % 64] = b;
        self.read(&bytes[..self.len()])
    }

    // The first n bytes, or all of them.
    pub fn read_first(self, n: usize) -> Result<usize, Refusal> {
        let bytes = self.bytes();
        self.read(&bytes[..n.min(64)])
    }
}

// The code of a block of a type, with the byte b at `at`.
pub fn read_block(ty: u8, at: usize, b: u8) -> Result<usize, Refusal> {
    let mut block = [ty, 0, 0, 8, 1, 0, 0, 0];
    block[at % 8] = b;
    let code = match AlgorithmPayload::from_data(block)? {
        AlgorithmPayload::Authentication(a) => a.code(),
        AlgorithmPayload::Integrity(i) => i.code(),
        AlgorithmPayload::Confidentiality(c) => c.code(),
    };
    Ok(usize::from(code))
}

// The open response of the Rust's test.
fn show_open_case(rt: &impl Print) -> io::Result<()> {
    let message =
        b"\x00\x00\x04\x00\xa4\xa3\xa2\x0a\xe0\x34\x71\x4a\x00\x00\x00\x08\x01\x00\x00\x00\x01\x00\x00\x08\x01\x00\x00\x00\x02\x00\x00\x08\x00\x00\x00\x00";
    print!(rt; "open response:")?;
    match OpenSessionResponse::from_data(message) {
        Err(r) => show_refused(rt, r)?,
        Ok(m) => show_response(rt, m)?,
    }
    println!(rt)
}

fn show_refused(rt: &impl Print, r: Refusal) -> io::Result<()> {
    print!(rt; " refused {}", r.number())
}

fn show_response(rt: &impl Print, m: OpenSessionResponse) -> io::Result<()> {
    print!(rt;
        " tag {} level {} console {} system {}",
        m.tag, m.level, m.console, m.system
    )?;
    print!(rt; " authentication {}", m.authentication.code())?;
    print!(rt; " integrity {}", m.integrity.code())?;
    print!(rt; " confidentiality {}", m.confidentiality.code())
}

// Message 2 of the Rust's test.
const RUST_2: [u8; 60] =
    *b"\x00\x00\x00\x00\xa4\xa3\xa2\xa0\xe8\x2c\x00\x00\x42\x72\x00\x00\x59\x18\x00\x00\
    \xac\x04\x00\x00\x00\x00\x00\x00\x00\x00\x00\x00\x00\x00\x00\x00\x00\x00\x00\x00\
    \x6b\x61\xba\x25\xc8\x22\x4e\x32\x78\x63\x62\x6b\x30\x7c\x8d\xc8\x15\x22\x90\x91";

// What is shown of a message 2 that is refused: zeros, since the stored output has them, and no number as for the other messages.
const NOTHING_2: RakpMessage2 = RakpMessage2 {
    tag: 0,
    console: 0,
    random: [0u8; 16],
    guid: [0u8; 16],
    code: Place { at: 0, len: 0 },
};

fn show_2(rt: &impl Print, label: &str, message: &[u8]) -> io::Result<()> {
    let m = RakpMessage2::from_data(message).unwrap_or(NOTHING_2);
    print!(rt; "{label}: tag {} console {} random ", m.tag, m.console)?;
    show_hex(rt, &m.random)?;
    print!(rt; " guid ")?;
    show_hex(rt, &m.guid)?;
    println!(rt; " code at {} of {}", m.code.at, m.code.len)
}

fn show_4(rt: &impl Print, label: &str, message: &[u8]) -> io::Result<()> {
    print!(rt; "{label}:")?;
    match RakpMessage4::from_data(message) {
        Err(r) => show_refused(rt, r)?,
        Ok(m) => print!(rt;
            " tag {} id {} value at {} of {}",
            m.tag, m.id, m.value.at, m.value.len
        )?,
    }
    println!(rt)
}

pub fn show_cases(rt: &impl Print) -> io::Result<()> {
    show_open_case(rt)?;
    show_2(rt, "message 2", &RUST_2)?;
    show_2(rt, "message 2, other bytes", &BYTES_2)?;
    show_2(rt, "message 2, refused", &BYTES_2[..39])?;
    show_4(rt, "message 4", &BYTES_4[..20])
}
