// The cases of the calls that write into a room, each alone.
use crate::answer::Answer;
use crate::lent::lend_room;
use crate::{frames, message_writers};
use refusal::Refusal;

// What is written.
#[derive(Clone, Copy)]
pub enum Writer {
    Packet,
    Datagram,
    OpenRequest,
    Rakp1,
    Rakp3,
    Decline,
}

// Which field of a line is the room. No discriminants: two of the cases have the same.
fn find_room(which: Writer) -> usize {
    match which {
        Writer::Packet | Writer::Datagram => 8,
        Writer::OpenRequest => 7,
        Writer::Rakp1 => 6,
        Writer::Rakp3 => 4,
        Writer::Decline => 3,
    }
}

fn write_into(
    line: &[u8],
    which: Writer,
    buf: &mut [u8],
    room: &mut [u8],
) -> Option<Result<usize, Refusal>> {
    match which {
        Writer::Packet => frames::write_line(line, frame::write_payload, buf, room),
        Writer::Datagram => frames::write_line(line, frame::write_datagram, buf, room),
        Writer::OpenRequest => message_writers::write_request(line, room),
        Writer::Rakp1 => message_writers::write_message1(line, buf, room),
        Writer::Rakp3 => message_writers::write_message3(line, buf, room),
        Writer::Decline => message_writers::write_declining(line, room),
    }
}

// `write ..`, `wrap ..`, `open-request ..`, `rakp1 ..`, `rakp3 ..` and `decline ..`.
pub fn tell_written(
    line: &[u8],
    which: Writer,
    buf: &mut [u8],
    room: &mut [u8],
    a: &mut Answer,
) -> Option<()> {
    let size = cases::read_room(line, find_room(which))?;
    let room = lend_room(room, size as usize);
    let written = write_into(line, which, buf, room)?;
    a.say_output(written.map(|_| ()), written.unwrap_or(0), room);
    Some(())
}
