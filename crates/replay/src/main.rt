// Cases in, answers out: each line of standard input is a case, and each has one line of answer on standard output
// (docs/REPLAY.md).
#![tactic(auto)]

ghost use Rattle.std.specs.Prelude.{◌≡◌, length};

mod answer;
mod arriving;
mod calls;
mod ciphers;
mod frames;
mod hashes;
mod lent;
mod message_readers;
mod message_writers;
mod numbers;
mod script;
mod steps;
mod words;
mod writers;

use answer::Answer;
use cases::Input;
use std::io;
use std::io::Read;
use text::Cursor;

// Of output no more than this waits before a line is answered.
const MUCH: usize = 65536;

const START: Cursor = Cursor { at: 0, full: false };

// Reads a piece of the input; none is its end. Where that fails the answers that wait are written out all the same.
fn read_piece(
    rt: &impl Print,
    from: &mut impl Read,
    piece: &mut [u8],
    a: &mut Answer,
) -> io::Result<usize> {
    match from.read(piece) {
        Ok(n) => Ok(n),
        Err(e) => {
            a.flush(rt)?;
            Err(e)
        }
    }
}

// What waits is written out before much has gathered, and before a long line, whose answer may need all the room.
fn make_room(rt: &impl Print, line: Cursor, a: &mut Answer) -> io::Result<()> {
    if MUCH <= a.end.at || MUCH <= line.at {
        a.flush(rt)?;
    }
    Ok(())
}

// Zeros, whose number the check need not count out: so they are made in a function of their own, which a contract keeps closed.
fn make_zeros<const N: usize>() -> [u8; N]
    ensures { N ≡ length result }
{
    [0u8; N]
}

// Answers line after line. A line has 524,288 characters at most, and the bytes that its fields say and the room that a call is lent
// are no more; the longest answer, which is to a script of nothing but `begin`, is three times as long. A proved loop has to end, and
// nothing says that an input does: so the turns are counted to a number that no run uses up.
fn run(rt: &impl Print, from: &mut impl Read) -> io::Result<()> {
    let mut piece = make_zeros::<65536>();
    let mut line = make_zeros::<524288>();
    let mut bytes = make_zeros::<524288>();
    let mut room = make_zeros::<524288>();
    let mut out = make_zeros::<2097152>();
    let mut a = Answer {
        out: &mut out,
        end: START,
    };
    let mut input = Input {
        from: 0,
        to: 0,
        line: START,
        whole: false,
    };
    for _ in 0..u64::MAX {
        if input.to <= input.from {
            input.from = 0;
            input.to = read_piece(rt, from, &mut piece, &mut a)?;
            // The last line may lack its newline.
            input.whole = input.to == 0 && input.line.at != 0;
        }
        if input.to != 0 {
            input = cases::gather(input, &piece, &mut line);
        }
        make_room(rt, input.line, &mut a)?;
        if input.whole {
            let gathered = cases::pick_line(&line, input.line);
            words::answer_line(gathered, &mut bytes, &mut room, &mut a);
            input.line = START;
        }
        if input.to == 0 {
            break;
        }
    }
    a.flush(rt)
}

fn main(rt: HostRuntime) -> io::Result<()> {
    run(&rt, &mut rt.stdin())
}
