// Plays a lasso of the concrete machine, written in the arguments as `0 1 / 2 3`, by the table of the show on standard input, and writes the
// abstract machine's run as one line. A read that fails ends the input.
// A call that is lent a buffer tells how much of it is filled, so that the two stand side by side here.
#![tactic(auto)]

ghost use Rattle.std.specs.Prelude.{◌≤◌, length, IfSome};

use std::env::FillError;
use std::io;
use std::rt::Env;

// The arguments' text, a blank behind each, put into a lent buffer as `arg` puts each of them: its length, and none where it does not fit.
fn arguments(rt: &impl Env, text: &mut [u8]) -> Option<usize>
    ensures { IfSome result (λ n. n ≤ length text.old) }
{
    let mut at = 0;
    for i in 1..usize::MAX {
        match rt.arg(i, &mut text[at..]) {
            Err(FillError::NotPresent) => return Some(at),
            Err(FillError::TooLong) => return None,
            Ok(n) => at += n,
        }
        if text.len() <= at {
            return None;
        }
        text[at] = b' ';
        at += 1;
    }
    Some(at)
}

// Reads the show from standard input where the arguments are a lasso, and gives how many bytes were read, as `read_full` does; a caller who is to be
// told how to call it is not kept waiting.
fn shown<R: io::Read>(wanted: bool, input: &mut R, buffer: &mut [u8]) -> usize
    ensures { result ≤ length buffer.new }
{
    if wanted {
        stream::read_full(input, buffer)
    } else {
        0
    }
}

fn main(rt: HostRuntime) -> io::Result<()> {
    let mut text = [0u8; 4096];
    // a text that does not fit is taken as the empty one, which is no lasso
    let length = arguments(&rt, &mut text).unwrap_or(0);
    let wanted = playline::is_lasso(&text[..length]);
    let mut buffer = [0u8; codec::INPUT_ROOM];
    let count = shown(wanted, &mut rt.stdin(), &mut buffer);
    let mut line = playline::Line::new();
    playline::append_play_line(&mut line, &buffer[..count], &text[..length]);
    rt.write_all(&line)
}
