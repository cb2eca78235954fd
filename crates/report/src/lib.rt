// What became of one packet, as a line: the small program's work, which the program only feeds and prints.
#![tactic(auto)]

ghost use Rattle.std.specs.Prelude.{◌≡◌};
ghost use Rattle.reader.specs.Answers.{accepted_told};
ghost use Rattle.text.specs.Promise.{AddPromise};
ghost use Rattle.report.specs.Told.{Bare, packet_told, numbers_told, found, told};

mod feed;

pub use feed::tell_input;
use keys::Keys;
use reader::Accepted;
use refusal::Refusal;
use suite::{Confidentiality, Integrity, SubState};
use text::{Cursor, Packet};

// The longest packet that is read.
pub const LONGEST: usize = 4096;

// A packet that was read, as a line has it.
fn make_packet(a: Accepted) -> Packet
    ensures { packet_told result ≡ accepted_told a }
{
    Packet {
        kind: a.ty.number(),
        id: a.session_id,
        seq: a.session_sequence_number,
        len: a.len,
    }
}

// A session with neither algorithm, whose keys nothing looks at. They are made here: `keys` makes keys of a secret alone, and a public maker of
// zeros there would be one that a session could take by mistake.
fn make_session() -> SubState
    ensures { Bare result }
{
    SubState {
        keys: Keys {
            sik: [0u8; 20],
            k1: [0u8; 20],
            k2: [0u8; 20],
        },
        confidentiality: Confidentiality::None,
        integrity: Integrity::None,
    }
}

// What becomes of a packet.
fn read_packet(packet: &[u8]) -> Result<Packet, Refusal>
    ensures { numbers_told result ≡ found packet.now }
{
    if packet.is_empty() {
        return Err(Refusal::NotEnoughData);
    }
    if packet.len() > LONGEST {
        return Err(Refusal::OutputTooShort);
    }
    let r = reader::read_checked(make_session(), packet);
    r.answer.map(make_packet)
}

// Adds the line that tells what becomes of the packet.
pub fn tell(packet: &[u8], out: &mut [u8], c: Cursor) -> Cursor
    ensures { AddPromise out.old c (told packet.now) result out.new }
{
    text::packet_line(out, c, read_packet(packet))
}
