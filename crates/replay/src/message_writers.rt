// The cases of the messages' writers, each alone.
use crate::lent::pick_span;
use crate::numbers::{read_byte, read_level};
use cases::{read_bytes, read_exact, read_id};
use messages::auth::{AuthenticationAlgorithm, ConfidentialityAlgorithm, IntegrityAlgorithm};
use messages::open_session::OpenSessionRequest;
use messages::rakp_1::{RakpMessage1, Username};
use messages::rakp_3::RakpMessage3;
use refusal::Refusal;

// `open-request TAG LEVEL ID A I C ROOM`.
pub fn write_request(line: &[u8], room: &mut [u8]) -> Option<Result<usize, Refusal>> {
    let request = OpenSessionRequest {
        tag: read_byte(line, 1)?,
        level: read_level(line, 2)?,
        console: read_id(line, 3)?,
        authentication: AuthenticationAlgorithm::try_from(read_byte(line, 4)?).ok()?,
        integrity: IntegrityAlgorithm::try_from(read_byte(line, 5)?).ok()?,
        confidentiality: ConfidentialityAlgorithm::try_from(read_byte(line, 6)?).ok()?,
    };
    Some(request.write_data(room))
}

// `rakp1 TAG ID RM ROLE NAME ROOM`. A name that makes no username is told before the room is looked at.
pub fn write_message1(
    line: &[u8],
    buf: &mut [u8],
    room: &mut [u8],
) -> Option<Result<usize, Refusal>> {
    let tag = read_byte(line, 1)?;
    let system = read_id(line, 2)?;
    let random = read_exact::<16>(line, 3)?;
    let role = read_byte(line, 4)?;
    let name = read_bytes(line, 5, buf, 0)?;
    Some(match Username::new(pick_span(buf, name)) {
        Ok(username) => RakpMessage1 {
            tag,
            system,
            random,
            role,
            username,
        }
        .write(room),
        Err(r) => Err(r),
    })
}

// TAG and ID of a message 3.
fn read_third(line: &[u8]) -> Option<RakpMessage3> {
    Some(RakpMessage3 {
        tag: read_byte(line, 1)?,
        system: read_id(line, 2)?,
    })
}

// `rakp3 TAG ID CODE ROOM`.
pub fn write_message3(
    line: &[u8],
    buf: &mut [u8],
    room: &mut [u8],
) -> Option<Result<usize, Refusal>> {
    let third = read_third(line)?;
    let code = read_bytes(line, 3, buf, 0)?;
    Some(third.write(pick_span(buf, code), room))
}

// `decline TAG ID ROOM`.
pub fn write_declining(line: &[u8], room: &mut [u8]) -> Option<Result<usize, Refusal>> {
    Some(read_third(line)?.decline(room))
}
