// Reads a show from standard input and takes turns of the solver until one is finished: a line for each turn as it ends, with how many pairs
// are still in, and last the line of the finish; or the line of a refusal. A read that fails ends the input.
#![tactic(auto)]

ghost use Rattle.std.specs.Prelude.{◌≤◌};

use machine::Pair;
use report::Line;
use std::io;

// The most turns that a finish takes.
const MOST_TURNS: usize = machine::TABLE_ROOM + 1;

fn write_line(rt: &impl Print, line: Line) -> io::Result<()>
    requires { line.length ≤ 128 }
{
    let text = line.text;
    rt.write_all(&text[..line.length])
}

// Takes a turn after the other from the first family on.
fn take_turns(rt: &impl Print, pair: Pair, first: [u64; 448], table: &mut [u16]) -> io::Result<()> {
    let mut family = first;
    for t in 1..=MOST_TURNS {
        match progress::turn(pair, &mut family, table) {
            Err(refusal) => return write_line(rt, report::refusal_line(refusal)),
            Ok(finished) => {
                write_line(rt, turnline::turn_line(pair, t, family))?;
                if finished {
                    return write_line(rt, turnline::finished_line(t));
                }
            }
        }
    }
    Ok(())
}

// Like each caller of the reader it lends a table of its own, and goes on from what is read directly: document 01 names this form.
fn main(rt: HostRuntime) -> io::Result<()> {
    let mut buffer = [0u8; codec::INPUT_ROOM];
    let bytes = stream::filled(&mut rt.stdin(), &mut buffer);
    let mut table = [0u16; machine::TABLE_ROOM];
    let show = codec::reader::read_file(bytes, &mut table);
    let pair = show.pair;
    match show.reading.and_then(|_| progress::first_family(pair)) {
        Err(refusal) => write_line(&rt, report::refusal_line(refusal)),
        Ok(first) => take_turns(&rt, pair, first, &mut table),
    }
}
