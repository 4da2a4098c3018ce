// The calls for C, in one archive. Each is the call of the same name of its library, and has its clauses. C's interface is why they take bytes, lent
// buffers and `spot` side by side and give one number back.
#![tactic(auto)]

ghost use Rattle.std.specs.Prelude.{◌≡◌, take, length};
ghost use Rattle.verdict.specs.Outcomes.{file_outcome, outcome_number};
ghost use Rattle.codec.specs.Reader.{size_of};
ghost use Rattle.console.specs.FirstBlock.{size_number};
ghost use Rattle.machine.specs.Refusals.{spot_after};
ghost use Rattle.codec.specs.Answers.{length_of};
ghost use Rattle.restore.specs.Restoring.{restore_answer, restore_buffer};
ghost use Rattle.machine.specs.Lassos.{given};
ghost use Rattle.playback.specs.Playing.{file_run, file_run_buffer, run_number, run_spot};
ghost use Rattle.watch.specs.Watching.{first_file, first_file_rows, ready_number, turn_file, turn_file_rows, turn_file_table, told_number, look_up_file};
ghost use Rattle.export.specs.Exporting.{export_answer, export_buffer};

// What is said of the file with these bytes, as one number: a refusal's, 101 without a table, 100 for Carried, or 200 with the lowest start state
// that lacks a partner added.
#[unsafe(no_mangle)]
pub extern "C" fn console_answer(bytes: &[u8]) -> u32
    ensures { result ≡ outcome_number (file_outcome bytes.now) }
{
    console::console_answer(bytes)
}

// The length in bytes that the whole file must have, by its first block, or a refusal's number, which is less than any length. It looks at
// no more than the first block; fewer bytes are refused.
#[unsafe(no_mangle)]
pub extern "C" fn first_block_answer(bytes: &[u8]) -> u32
    ensures { result ≡ size_number (size_of (take 512 bytes.now)) }
{
    console::first_block_answer(bytes)
}

// The show of a file with the solver's table: the file's length, or 0 with the refusal's number and spot in `spot`, which is unchanged beside a length.
#[unsafe(no_mangle)]
pub extern "C" fn solve_file(bytes: &[u8], out: &mut [u8], spot: &mut [u64; 4]) -> usize
    ensures value { result ≡ length_of (restore_answer bytes.now out.old) }
    ensures content { out.new ≡ restore_buffer bytes.now out.old }
    ensures numbers { spot.new ≡ spot_after (restore_answer bytes.now out.old) spot.old }
{
    restore::solve_file(bytes, out, spot)
}

// A lasso played by the table of a file: stem length x 65,536 + loop length, or 0 with the refusal's number and spot in `spot`, which is unchanged beside a run. A
// file without a table has the number 101.
#[unsafe(no_mangle)]
pub extern "C" fn play_file(
    bytes: &[u8],
    stem: &[u8],
    cycle: &[u8],
    run: &mut [u8],
    spot: &mut [u64; 4],
) -> u64
    ensures value { result ≡ run_number (file_run bytes.now (given stem.now cycle.now) run.old) }
    ensures content { run.new ≡ file_run_buffer bytes.now (given stem.now cycle.now) run.old }
    ensures numbers { spot.new ≡ run_spot (file_run bytes.now (given stem.now cycle.now) run.old) spot.old }
{
    playback::play_file(bytes, stem, cycle, run, spot)
}

// 1, and the first family; 0 for a refusal, which leaves `family` as it is.
#[unsafe(no_mangle)]
pub extern "C" fn first_family_file(
    bytes: &[u8],
    family: &mut [u64; 448],
    spot: &mut [u64; 4],
) -> u32
    ensures number { result ≡ ready_number (first_file bytes.now) }
    ensures rows { family.new ≡ first_file_rows bytes.now family.old }
    ensures numbers { spot.new ≡ spot_after (first_file bytes.now) spot.old }
{
    watch::first_family_file(bytes, family, spot)
}

// 1 for a turn that is not finished, 2 for one that is, with the next family, and the table where it is finished; 0 for a refusal, which
// leaves both as they are.
#[unsafe(no_mangle)]
pub extern "C" fn turn_file(
    bytes: &[u8],
    family: &mut [u64; 448],
    table: &mut [u16],
    spot: &mut [u64; 4],
) -> u32
    ensures number { result ≡ told_number (turn_file bytes.now family.old (length table.old)) }
    ensures rows { family.new ≡ turn_file_rows bytes.now family.old (length table.old) }
    ensures entries { table.new ≡ turn_file_table bytes.now family.old table.old }
    ensures numbers { spot.new ≡ spot_after (turn_file bytes.now family.old (length table.old)) spot.old }
{
    watch::turn_file(bytes, family, table, spot)
}

// 1 for a pair that is struck out, 2 for one that is still in, 0 for a refusal.
#[unsafe(no_mangle)]
pub extern "C" fn look_up_file(
    bytes: &[u8],
    family: &[u64; 448],
    section: usize,
    c: usize,
    a: usize,
    spot: &mut [u64; 4],
) -> u32
    ensures number { result ≡ told_number (look_up_file bytes.now family.now section c a) }
    ensures numbers { spot.new ≡ spot_after (look_up_file bytes.now family.now section c a) spot.old }
{
    watch::look_up_file(bytes, family, section, c, a, spot)
}

// The text of one machine of a file: the text's length, or 0 with the refusal's number and spot in `spot`, which is unchanged beside a length.
#[unsafe(no_mangle)]
pub extern "C" fn hoa_file(bytes: &[u8], which: usize, out: &mut [u8], spot: &mut [u64; 4]) -> usize
    ensures value { result ≡ length_of (export_answer bytes.now which (length out.old)) }
    ensures content { out.new ≡ export_buffer bytes.now which out.old }
    ensures numbers { spot.new ≡ spot_after (export_answer bytes.now which (length out.old)) spot.old }
{
    export::hoa_file(bytes, which, out, spot)
}
