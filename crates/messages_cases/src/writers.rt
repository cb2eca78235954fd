// Cases for the writers: each writes into the start of 64 bytes AA, of which the first ones are lent.
use crate::rows::{End, Told, show_hex};
use messages::auth::{AuthenticationAlgorithm, ConfidentialityAlgorithm, IntegrityAlgorithm};
use messages::open_session::OpenSessionRequest;
use messages::rakp_1::{RakpMessage1, Username};
use messages::rakp_3::RakpMessage3;
use refusal::Refusal;
use std::io;

// What is written: the request for a level, message 1 with a name of a length, message 3 with a code of a length or declining.
#[derive(Clone, Copy)]
pub enum Writer {
    Request(Option<u8>),
    One(usize),
    Three(usize),
    Declined,
}

const MESSAGE_3: RakpMessage3 = RakpMessage3 {
    tag: 0x0a,
    system: 0x2f590161,
};

fn make_request(level: Option<u8>) -> OpenSessionRequest {
    OpenSessionRequest {
        tag: 0,
        level,
        console: 0x0aa2a3a4,
        authentication: AuthenticationAlgorithm::RakpHmacSha1,
        integrity: IntegrityAlgorithm::HmacSha256_128,
        confidentiality: ConfidentialityAlgorithm::AesCbc128,
    }
}

// Message 1 of the Rust's test, with a name of the given length.
fn make_message_1(len: usize) -> RakpMessage1 {
    RakpMessage1 {
        tag: 0,
        system: 0x2f590161,
        random: [
            0x52, 0xf0, 0x5e, 0x19, 0x70, 0x79, 0xb4, 0xf9, 0xab, 0xec, 0x4a, 0x0e, 0x69, 0x36,
            0xa9, 0xa3,
        ],
        role: 4,
        username: Username {
            bytes: *b"jonathan abcdefg",
            len,
        },
    }
}

impl Writer {
    fn write(self, out: &mut [u8]) -> Result<usize, Refusal> {
        match self {
            Writer::Request(level) => make_request(level).write_data(out),
            Writer::One(len) => make_message_1(len).write(out),
            Writer::Three(len) => MESSAGE_3.write(&[0x5cu8; 32][..len.min(32)], out),
            Writer::Declined => MESSAGE_3.decline(out),
        }
    }

    // The answer with room for n bytes: the refusal and how many bytes changed, or the length told.
    pub fn tell(self, n: u8) -> Told {
        let mut out = [0xaau8; 64];
        let room = usize::from(n).min(64);
        let answer = self.write(&mut out[..room]);
        let changed = out.iter().filter(|b| **b != 0xaa).count();
        match answer {
            Err(r) => Told::new(n, End::Refused(r.number()), changed),
            Ok(len) if len == changed => Told::new(n, End::Accepted, len),
            Ok(len) => Told::new(n, End::WrongLength, len),
        }
    }
}

// The whole of the 64 bytes after a message was written.
fn show_written(rt: &impl Print, label: &str, writer: Writer) -> io::Result<()> {
    let mut out = [0xaau8; 64];
    let _ = writer.write(&mut out);
    print!(rt; "{label}: ")?;
    show_hex(rt, &out)?;
    println!(rt)
}

pub fn show_cases(rt: &impl Print) -> io::Result<()> {
    show_written(rt, "open request, level 3", Writer::Request(Some(3)))?;
    show_written(rt, "open request, no level", Writer::Request(None))?;
    show_written(rt, "message 1", Writer::One(4))?;
    show_written(rt, "message 1, name of 16", Writer::One(16))?;
    show_written(rt, "message 1, name length 17", Writer::One(17))?;
    show_written(rt, "message 3", Writer::Three(20))?;
    show_written(rt, "message 3, declining", Writer::Declined)
}
