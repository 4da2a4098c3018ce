// Reads a show from standard input and writes its two machines as one stream of the Hanoi Omega-Automata format to standard output, the concrete
// machine first; or the line of a refusal. A read that fails ends the input.
// A call that is lent a buffer tells how much of it is filled, so that the two stand side by side here.
#![tactic(auto)]

use std::io;

// Writes the text of a machine of the file, and says whether it did; or writes the line of the refusal, which is the same for both machines. The
// machine is a number, as `export::text_bytes` takes it.
fn write_machine(rt: &impl Print, bytes: &[u8], which: usize) -> io::Result<bool> {
    let mut out = [0u8; hanoi::TEXT_ROOM];
    match export::text_bytes(bytes, which, &mut out) {
        Ok(n) => {
            rt.write_all(&out[..n])?;
            Ok(true)
        }
        Err(refusal) => {
            let line = report::refusal_line(refusal);
            let text = line.text;
            rt.write_all(&text[..line.length])?;
            Ok(false)
        }
    }
}

fn main(rt: HostRuntime) -> io::Result<()> {
    let mut buffer = [0u8; codec::INPUT_ROOM];
    let bytes = stream::filled(&mut rt.stdin(), &mut buffer);
    if write_machine(&rt, bytes, 0)? {
        write_machine(&rt, bytes, 1)?;
    }
    Ok(())
}
