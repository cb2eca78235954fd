// Tells of one packet: reads it from standard input, as a session with neither algorithm, and writes one line (docs/RULES.md,
// section 8). The four programs packet, packet_empty, packet_longest and packet_longer have one text: the gate runs a program on one
// stored input, so each input has a program of its own.
#![tactic(auto)]

use std::io;
use text::Cursor;

fn main(rt: HostRuntime) -> io::Result<()> {
    let mut line = [0u8; 64];
    let start = Cursor { at: 0, full: false };
    let c = report::tell_input(&mut rt.stdin(), &mut line, start)?;
    rt.write_all(&line[..c.at.min(line.len())])
}
