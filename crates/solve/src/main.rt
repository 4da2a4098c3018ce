// Reads a show from standard input and writes it with the solver's table to standard output. A refusal is one line on standard error, and
// nothing on standard output. A read that fails ends the input.
// A call that is lent a buffer tells how much of it is filled, so that the two stand side by side here.
#![tactic(auto)]

use std::io;

fn main(rt: HostRuntime) -> io::Result<()> {
    let mut buffer = [0u8; codec::INPUT_ROOM];
    let bytes = stream::filled(&mut rt.stdin(), &mut buffer);
    let mut out = [0u8; codec::FILE_ROOM];
    match restore::solve_bytes(bytes, &mut out) {
        Ok(n) => rt.write_all(&out[..n]),
        Err(refusal) => {
            let line = report::refusal_line(refusal);
            let text = line.text;
            rt.stderr().write_all(&text[..line.length])
        }
    }
}
