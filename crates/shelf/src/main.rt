// Reads one file from standard input and writes what is said of it, as one line, to standard output. A read that fails ends the input.
#![tactic(auto)]

use std::io;

fn main(rt: HostRuntime) -> io::Result<()> {
    let mut buffer = [0u8; codec::INPUT_ROOM];
    let bytes = stream::filled(&mut rt.stdin(), &mut buffer);
    let line = report::shelf_line(bytes);
    let text = line.text;
    rt.write_all(&text[..line.length])
}
