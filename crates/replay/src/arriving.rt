// The cases of packets that are taken once, by the record of their numbers.
use crate::answer::Answer;
use crate::frames::{put_twice, read_session, tell_packet};
use arrivals::Arrivals;
use cases::read_id;
use frame::SubState;
use once::ReadOnce;

// ` record H S`.
fn say_record(a: &mut Answer, record: Arrivals) {
    a.say_id(b" record ", record.highest);
    a.say_id(b" ", record.seen);
}

// ` record H S count C`.
fn say_counted(a: &mut Answer, record: Arrivals) {
    say_record(a, record);
    a.say_number(b" count ", record.count());
}

// HIGHEST and SEEN, the record before a call, by the places of the two fields.
fn read_record(line: &[u8], highest: usize, seen: usize) -> Option<Arrivals> {
    Some(Arrivals {
        highest: read_id(line, highest)?,
        seen: read_id(line, seen)?,
    })
}

// Tells what becomes of a number, `ok` or the refusal, and answers the record after it.
fn take_number(a: &mut Answer, record: Arrivals, n: u32) -> Arrivals {
    match record.take(n) {
        Ok(after) => {
            a.say(b"ok");
            after
        }
        Err(r) => {
            a.say_refusal(r);
            record
        }
    }
}

// `arrive HIGHEST SEEN N`.
pub fn tell_arrive(line: &[u8], a: &mut Answer) -> Option<()> {
    let record = read_record(line, 1, 2)?;
    let n = read_id(line, 3)?;
    let after = take_number(a, record, n);
    say_counted(a, after);
    Some(())
}

// `arrivals N N ..`: takes the numbers, one after the other, into a new record. One bad number makes the whole line bad.
pub fn tell_arrivals(line: &[u8], a: &mut Answer) -> Option<()> {
    let mut record = Arrivals::new();
    for (k, field) in line.split(|b| *b == b' ').skip(1).enumerate() {
        let n = read_id(field, 0)?;
        a.part_answers(k);
        record = take_number(a, record, n);
    }
    say_counted(a, record);
    Some(())
}

// `once CONF INTEG SIK HIGHEST SEEN PACKET` and `once-datagram CONF INTEG SIK HIGHEST SEEN DATAGRAM`.
pub fn tell_once<F: Fn(SubState, Arrivals, &mut [u8]) -> ReadOnce>(
    line: &[u8],
    start: usize,
    read: F,
    buf: &mut [u8],
    a: &mut Answer,
) -> Option<()>
    requires { F.IsAlwaysCallable read }
{
    let s = read_session(line)?;
    let record = read_record(line, 4, 5)?;
    let (packet, kept) = put_twice(line, 6, buf)?;
    let r = read(s, record, packet);
    tell_packet(s, start, r.read, kept, packet, a);
    say_record(a, r.arrivals);
    Some(())
}
