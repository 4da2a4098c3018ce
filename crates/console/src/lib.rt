// The console's calls, for C: a file's bytes in, one number out; and a file's first block in, the whole file's length out.
#![tactic(auto)]

ghost use Rattle.std.specs.Prelude.{◌≡◌, take};
ghost use Rattle.codec.specs.Reader.{size_of};
ghost use Rattle.verdict.specs.Outcomes.{file_outcome, outcome_number};
ghost use Rattle.console.specs.FirstBlock.{size_number};

use machine::Verdict;

// What C is told of a carried show: a number, as document 01 has it for C.
pub const CARRIED: u32 = 100;

// What C is told of one that is not, with the lowest start state that lacks a partner added: a number, as document 01 has it for C.
pub const NOT_CARRIED: u32 = 200;

// What is said of the file with these bytes, as one number, since C's interface wants bytes in and a number back: a refusal's, 101 without a
// table, or one of those above.
pub fn console_answer(bytes: &[u8]) -> u32
    ensures { result ≡ outcome_number (file_outcome bytes.now) }
{
    match verdict::file_verdict(bytes) {
        Ok(Some(Verdict::Carried { .. })) => CARRIED,
        Ok(Some(Verdict::NotCarried { lacking, .. })) => NOT_CARRIED + lacking as u32,
        Ok(None) => machine::NO_TABLE,
        Err(refusal) => refusal.number(),
    }
}

// The length in bytes that the whole file must have, by its first block, or a refusal's number, which is less than any length. It looks at
// no more than the first block; fewer bytes are refused.
pub fn first_block_answer(bytes: &[u8]) -> u32
    ensures { result ≡ size_number (size_of (take 512 bytes.now)) }
{
    let end = bytes.len().min(512);
    match codec::reader::file_size(&bytes[..end]) {
        Ok(size) => size as u32,
        Err(refusal) => refusal.number(),
    }
}
