// The line that tells what became of one packet.
ghost use Rattle.text.specs.Line.{line_of, Begins};
ghost use Rattle.text.specs.Promise.{AddPromise};

use crate::write::{Cursor, add, decimal, hex8};
use refusal::Refusal;

// The numbers of a packet that was read, as its line tells them; of the payload that is the length alone.
#[derive(Clone, Copy)]
pub struct Packet {
    pub kind: u8,
    pub id: u32,
    pub seq: u32,
    pub len: usize,
}

// The line of a packet at the start of `out`, and its length.
fn write_packet(out: &mut [u8; 64], p: Packet) -> usize
    ensures { Begins out.old (line_of (Ok p)) result out.new }
{
    let c = Cursor { at: 0, full: false };
    let c = add(out, c, b"type ");
    let c = decimal(out, c, u64::from(p.kind));
    let c = add(out, c, b" id ");
    let c = hex8(out, c, p.id);
    let c = add(out, c, b" seq ");
    let c = hex8(out, c, p.seq);
    let c = add(out, c, b" payload ");
    let c = decimal(out, c, p.len as u64);
    let c = add(out, c, b"\n");
    c.at
}

// The line of a refusal at the start of `out`, and its length.
fn write_refusal(out: &mut [u8; 64], r: Refusal) -> usize
    ensures { Begins out.old (line_of (Err r)) result out.new }
{
    let c = Cursor { at: 0, full: false };
    let c = add(out, c, b"refused ");
    let c = decimal(out, c, u64::from(r.number()));
    let c = add(out, c, b"\n");
    c.at
}

// The line of either at the start of `out`, and its length: at most 63 characters.
fn write_line(out: &mut [u8; 64], t: Result<Packet, Refusal>) -> usize
    ensures { Begins out.old (line_of t) result out.new }
{
    match t {
        Ok(p) => write_packet(out, p),
        Err(r) => write_refusal(out, r),
    }
}

// Adds the line of what is told: a packet's numbers, or a refusal. The newline that ends the line goes with it. The line is
// made beside first, since all of it goes in or nothing.
#[tactic(auto, using(crate::proofs::Writing::add_of, octets::proofs::Place::begun_take))]
pub fn packet_line(out: &mut [u8], c: Cursor, t: Result<Packet, Refusal>) -> Cursor
    ensures { AddPromise out.old c (line_of t) result out.new }
{
    let mut line = [0u8; 64];
    let n = write_line(&mut line, t);
    add(out, c, &line[..n])
}
