// Packets and datagrams read once: every check, then the packet's number, then the opening in its own buffer.
#![tactic(auto)]

ghost use Rattle.octets.specs.Bytes.{Bytes};
ghost use Rattle.framing.specs.Read.{read_of, left_of, blocks_of};
ghost use Rattle.framing.specs.Outer.{read_datagram_of, left_datagram, blocks_datagram};
ghost use Rattle.suite.specs.Session.{suite_of};
ghost use Rattle.once.specs.Promise.{NumberPromise, OncePromise};

use arrivals::Arrivals;
use frame::{Read, SubState};

// What was read, and the record of arrivals after it.
#[derive(Clone, Copy)]
pub struct ReadOnce {
    pub read: Read,
    pub arrivals: Arrivals,
}

// The number of a packet that passed every check is taken, or refused.
#[tactic(auto, unfolding(crate::specs::Guard::guard, crate::specs::Guard::record_after, refusal::specs::Order::and_then))]
fn check_number(r: Read, arrivals: Arrivals) -> ReadOnce
    ensures { NumberPromise arrivals r result }
{
    match r.answer {
        Err(_) => ReadOnce { read: r, arrivals },
        Ok(a) => match arrivals.take(a.session_sequence_number) {
            Ok(after) => ReadOnce {
                read: r,
                arrivals: after,
            },
            Err(why) => ReadOnce {
                read: Read {
                    answer: Err(why),
                    blocks: r.blocks,
                },
                arrivals,
            },
        },
    }
}

// Reads a packet of a session beside which the record of arrivals is kept. What is refused, by a check or by its number, leaves packet and
// record as they were.
pub fn read_payload(s: SubState, arrivals: Arrivals, packet: &mut [u8]) -> ReadOnce
    ensures once_promise { OncePromise arrivals (read_of (suite_of s) packet.old) (blocks_of (suite_of s) packet.old)
        (left_of (suite_of s) packet.old) packet.old result packet.new }
    ensures bytes { Bytes packet.old }
{
    let r = frame::read_checked(s, packet);
    let o = check_number(r, arrivals);
    if o.read.answer.is_ok() {
        frame::open_in_place(s, packet);
    }
    o
}

// Reads a datagram: the four outer bytes, then a packet.
pub fn read_datagram(s: SubState, arrivals: Arrivals, datagram: &mut [u8]) -> ReadOnce
    ensures once_promise { OncePromise arrivals (read_datagram_of (suite_of s) datagram.old) (blocks_datagram (suite_of s) datagram.old)
        (left_datagram (suite_of s) datagram.old) datagram.old result datagram.new }
    ensures bytes { Bytes datagram.old }
{
    match frame::check_outer(datagram) {
        Err(why) => ReadOnce {
            read: Read {
                answer: Err(why),
                blocks: 0,
            },
            arrivals,
        },
        Ok(()) => read_payload(s, arrivals, &mut datagram[4..]),
    }
}
