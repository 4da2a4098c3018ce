// Standard input or a file into a lent buffer, for the programs.
#![tactic(auto)]

ghost use Rattle.std.specs.Prelude.{◌≤◌, length};

use std::io::Read;

// Reads until the buffer is full or the input ends, and gives how many bytes it holds, as std's `Read::read` does of one read. A read that fails
// ends the input, so that a file that is cut short by one is refused like any other.
pub fn read_full<R: Read>(reader: &mut R, buffer: &mut [u8]) -> usize
    ensures { result ≤ length buffer.new }
{
    let mut at = 0;
    while at < buffer.len() {
        match reader.read(&mut buffer[at..]) {
            Ok(0) => break,
            Ok(n) => at += n,
            Err(_) => break,
        }
    }
    at
}

// The same, and gives the part of the buffer that is filled.
pub fn filled<'a, R: Read>(reader: &mut R, buffer: &'a mut [u8]) -> &'a [u8]
    ensures { length result.now ≤ length buffer.old }
{
    let count = read_full(reader, buffer);
    &buffer[..count]
}
