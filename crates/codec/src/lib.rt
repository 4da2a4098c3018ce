// Files: document 01, "Files". The reader, the writer, and a file's length from its first block.
#![tactic(auto)]

ghost use Rattle.std.specs.Prelude.{◌≡◌, ℕ, ◌+◌, ◌≤◌, ◌<◌, length};
ghost use Rattle.std.proofs.lemmas.List.Edits.{sets};
ghost use Rattle.std.proofs.Common.{arith};
ghost use Rattle.codec.specs.Format.{bytes_of, number_at, check_at};

use machine::{Pair, Refusal};

// The machines that were read, beside what the reader says: the file was taken, with the note whether a table came, or where it was stopped.
// Beside a refusal all numbers of the machines are zero. (Document 01 names this form: machines in a struct beside an enum.)
#[derive(Clone, Copy)]
pub struct Show {
    pub pair: Pair,
    pub reading: Result<bool, Refusal>,
}

// The room that a file of any counts takes: 116 blocks.
pub const FILE_ROOM: usize = 59392;

// What is taken as the file, of longer input.
pub const INPUT_ROOM: usize = 59904;

// The payload of 116 blocks.
const PAYLOAD_ROOM: usize = 58928;

pub mod reader;
pub mod writer;

// ---- Numbers

// A number as files have it: its bytes, low byte first.
trait Stored: Copy {
    ghost value: { Self → ℕ };

    ghost of: { ℕ → Self };

    const BYTES: usize;

    ghost BYTES: { ℕ };

    // The number that its bytes hold.
    fn read(bytes: &[u8]) -> Self
        requires { length bytes.now ≡ BYTES }
        ensures { result ≡ of (number_at BYTES bytes.now 0) };

    // Writes it over its bytes.
    fn write(self, bytes: &mut [u8])
        requires { length bytes.old ≡ BYTES }
        ensures { bytes.new ≡ bytes_of BYTES (value self) };

    ghost some: { 0 < BYTES };
}

// Each of the two spells the conversion of its own type, since std has no trait for it.
impl Stored for u16 {
    ghost value = { λ x. x };

    ghost of = { λ x. x };

    const BYTES: usize = 2;

    ghost BYTES = { 2 };

    fn read(bytes: &[u8]) -> u16 {
        let mut number = [0u8; 2];
        number.copy_from_slice(bytes);
        u16::from_le_bytes(number)
    }

    fn write(self, bytes: &mut [u8]) {
        bytes.copy_from_slice(&self.to_le_bytes());
    }

    ghost some = { Prim.omega arith };
}

impl Stored for u64 {
    ghost value = { λ x. x };

    ghost of = { λ x. x };

    const BYTES: usize = 8;

    ghost BYTES = { 8 };

    fn read(bytes: &[u8]) -> u64 {
        let mut number = [0u8; 8];
        number.copy_from_slice(bytes);
        u64::from_le_bytes(number)
    }

    fn write(self, bytes: &mut [u8]) {
        bytes.copy_from_slice(&self.to_le_bytes());
    }

    ghost some = { Prim.omega arith };
}

// The check of a block, of which these are the 510 bytes before it: the reader compares it, and the writer writes it.
fn check_of(front: &[u8]) -> u16
    requires { length front.now ≡ 510 }
    ensures { result ≡ check_at front.now 0 }
{
    let mut total: u32 = 0;
    for (i, byte) in front.iter().enumerate() {
        total += (i as u32 + 1) * *byte as u32;
    }
    (total % 65521) as u16
}
