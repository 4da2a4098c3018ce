// A file's bytes and a lasso of its concrete machine in, the abstract machine's run out.
#![tactic(auto)]

ghost use Rattle.std.specs.Prelude.{◌≡◌};
ghost use Rattle.machine.specs.Lassos.{given};
ghost use Rattle.playback.specs.Playing.{file_run, file_run_buffer, run_number, run_spot};

use machine::{Refusal, Run};

// Plays a lasso of the concrete machine by the table of a file: the abstract run goes to the lent buffer `run`, and its stem length and loop length
// come back, or that the file has no table; or where the call was stopped. Stem, loop and buffer are lent apart, as C lends them.
// Each caller of the reader lends a table of its own and passes a refusal on directly: document 01 names this form.
pub fn play_bytes(
    bytes: &[u8],
    stem: &[u8],
    cycle: &[u8],
    run: &mut [u8],
) -> Result<Option<Run>, Refusal>
    ensures answer { result ≡ file_run bytes.now (given stem.now cycle.now) run.old }
    ensures content { run.new ≡ file_run_buffer bytes.now (given stem.now cycle.now) run.old }
{
    if run.len() < player::RUN_ROOM {
        return Err(Refusal::ShortBuffer);
    }
    let mut table = [0u16; machine::TABLE_ROOM];
    let show = codec::reader::read_file(bytes, &mut table);
    let has_table = show.reading?;
    if !has_table {
        return Ok(None);
    }
    let lengths = player::play(show.pair, &table, stem, cycle, run)?;
    Ok(Some(lengths))
}

// The same for C, whose interface wants bytes, lent buffers and `spot`, and one number back: stem length x 65,536 + loop length, or 0 with the
// refusal's number and spot in `spot`, which is unchanged beside a run. A file without a table has the number 101.
pub fn play_file(
    bytes: &[u8],
    stem: &[u8],
    cycle: &[u8],
    run: &mut [u8],
    spot: &mut [u64; 4],
) -> u64
    ensures value { result ≡ run_number (file_run bytes.now (given stem.now cycle.now) run.old) }
    ensures content { run.new ≡ file_run_buffer bytes.now (given stem.now cycle.now) run.old }
    ensures numbers { spot.new ≡ run_spot (file_run bytes.now (given stem.now cycle.now) run.old) spot.old }
{
    match machine::told(play_bytes(bytes, stem, cycle, run), spot) {
        Some(Some(lengths)) => lengths.stem as u64 * 65536 + lengths.cycle as u64,
        Some(None) => {
            machine::put_refusal(spot, machine::refuse(machine::NO_TABLE, 0, 0, 0));
            0
        }
        None => 0,
    }
}
