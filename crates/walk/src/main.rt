// Walks along the files that are named in the arguments, in order, and writes a line for each: its number and what is said of it. A file that cannot
// be opened is an empty one; a read that fails ends the file.
#![tactic(auto)]

ghost use Rattle.std.specs.Prelude.{◌≤◌, length};

use chain::Walk;
use std::env::{Env, FillError};
use std::fs::{File, Files};
use std::io;

// Reads the file with this name into the buffer, and gives how many bytes were read.
fn read_named(files: &impl Files, name: &[u8], buffer: &mut [u8]) -> usize
    ensures { result ≤ length buffer.new }
{
    let Ok(path) = str::from_utf8(name) else {
        return 0;
    };
    match File::open(files, path) {
        Ok(mut file) => stream::read_full(&mut file, buffer),
        Err(_) => 0,
    }
}

fn main(rt: HostRuntime) -> io::Result<()> {
    let mut name = [0u8; 4096];
    let mut buffer = [0u8; codec::INPUT_ROOM];
    let mut walk = Walk::begin();
    for i in 1..usize::MAX {
        let count = match rt.arg(i, &mut name) {
            Err(FillError::NotPresent) => {
                if i == 1 {
                    return rt.write_all(&walkline::usage_line());
                }
                return Ok(());
            }
            // longer than any name that can be opened
            Err(FillError::TooLong) => 0,
            Ok(n) => read_named(&rt, &name[..n], &mut buffer),
        };
        let (next, said) = walk.step(&buffer[..count]);
        walk = next;
        rt.write_all(&walkline::walk_line(walk.place, said))?;
    }
    Ok(())
}
