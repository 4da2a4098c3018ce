// A show in, the same show with the solver's table out.
#![tactic(auto)]

ghost use Rattle.std.specs.Prelude.{◌≡◌};
ghost use Rattle.machine.specs.Refusals.{spot_after};
ghost use Rattle.codec.specs.Answers.{length_of};
ghost use Rattle.restore.specs.Restoring.{restore_answer, restore_buffer};

use machine::Refusal;

// Writes the show of a file with the solver's table into the buffer, and gives the new file's length, or where it was stopped: by the reader, or
// by the solver, which refuses an empty set. The buffer is lent, as C lends it.
// Each caller of the reader lends a table of its own and passes a refusal on directly: document 01 names this form.
pub fn solve_bytes(bytes: &[u8], out: &mut [u8]) -> Result<usize, Refusal>
    ensures answer { result ≡ restore_answer bytes.now out.old }
    ensures content { out.new ≡ restore_buffer bytes.now out.old }
{
    if out.len() < codec::FILE_ROOM {
        return Err(Refusal::ShortBuffer);
    }
    let mut table = [0u16; machine::TABLE_ROOM];
    let show = codec::reader::read_file(bytes, &mut table);
    show.reading?;
    let pair = show.pair;
    solver::solve(pair, &mut table)?;
    codec::writer::write_file(pair, true, &table, out)
}

// The same for C, whose interface wants bytes, a lent buffer and `spot`, and one number back: the file's length, or 0 with the refusal's number and
// spot in `spot`, which is unchanged beside a length.
pub fn solve_file(bytes: &[u8], out: &mut [u8], spot: &mut [u64; 4]) -> usize
    ensures value { result ≡ length_of (restore_answer bytes.now out.old) }
    ensures content { out.new ≡ restore_buffer bytes.now out.old }
    ensures numbers { spot.new ≡ spot_after (restore_answer bytes.now out.old) spot.old }
{
    machine::told(solve_bytes(bytes, out), spot).unwrap_or(0)
}
