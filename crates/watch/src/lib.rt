// The solver by turns on a file's bytes, for a drawing program that goes on between turns: it keeps the family and the table and lends them to each call.
// Section and states come one by one, as `progress::look_up` takes them.
#![tactic(auto)]

ghost use Rattle.std.specs.Prelude.{◌≡◌, length, replicate};
ghost use Rattle.std.specs.Result.{result_unwrap_or};
ghost use Rattle.machine.specs.Refusals.{spot_after};
ghost use Rattle.watch.specs.Watching.{machines_read, first_file, first_file_answer, first_file_given, first_file_rows, turn_file, turn_file_rows, turn_file_table, look_up_file, ready_number, told_number};

use machine::{Pair, Refusal};

// Reads the machines of a file; a table that came with them is not kept.
// Each caller of the reader lends a table of its own and passes a refusal on directly: document 01 names this form.
fn machines_of(bytes: &[u8]) -> Result<Pair, Refusal>
    ensures { result ≡ machines_read bytes.now }
{
    let mut table = [0u16; machine::TABLE_ROOM];
    let show = codec::reader::read_file(bytes, &mut table);
    show.reading?;
    Ok(show.pair)
}

// ---- The calls

// The first family of a file's machines, or where the call was stopped.
pub fn first_family_bytes(bytes: &[u8]) -> Result<[u64; 448], Refusal>
    ensures answer { result ≡ first_file_answer bytes.now }
    ensures family { result_unwrap_or result (replicate 448 0) ≡ first_file_given bytes.now }
{
    let pair = machines_of(bytes)?;
    progress::first_family(pair)
}

// A turn over a file's machines, and whether it is finished; the table that the file may have is not looked at. The lent table's room is tested here
// too, and not only by `progress::turn`: refusal 1 comes before the reader's.
pub fn turn_bytes(bytes: &[u8], family: &mut [u64; 448], table: &mut [u16]) -> Result<bool, Refusal>
    ensures answer { result ≡ turn_file bytes.now family.old (length table.old) }
    ensures family { family.new ≡ turn_file_rows bytes.now family.old (length table.old) }
    ensures content { table.new ≡ turn_file_table bytes.now family.old table.old }
{
    if table.len() < machine::TABLE_ROOM {
        return Err(Refusal::ShortBuffer);
    }
    let pair = machines_of(bytes)?;
    progress::turn(pair, family, table)
}

// Looks a pair of states of a file's machines up in a section, counted from 1: whether it is still in.
pub fn look_up_bytes(
    bytes: &[u8],
    family: &[u64; 448],
    section: usize,
    c: usize,
    a: usize,
) -> Result<bool, Refusal>
    ensures { result ≡ look_up_file bytes.now family.now section c a }
{
    let pair = machines_of(bytes)?;
    progress::look_up(pair, family, section, c, a)
}

// ---- The same for C, whose interface wants bytes, lent buffers and `spot`, and one number back
// The four numbers of a refusal go to `spot`, which is unchanged beside an answer.

// 1, and the first family; 0 for a refusal, which leaves `family` as it is.
pub fn first_family_file(bytes: &[u8], family: &mut [u64; 448], spot: &mut [u64; 4]) -> u32
    ensures number { result ≡ ready_number (first_file bytes.now) }
    ensures rows { family.new ≡ first_file_rows bytes.now family.old }
    ensures numbers { spot.new ≡ spot_after (first_file bytes.now) spot.old }
{
    match machine::told(first_family_bytes(bytes), spot) {
        Some(rows) => {
            *family = rows;
            1
        }
        None => 0,
    }
}

// 2 for yes and 1 for no; 0 for a refusal.
fn number_told(said: Result<bool, Refusal>, spot: &mut [u64; 4]) -> u32
    ensures number { result ≡ told_number said }
    ensures numbers { spot.new ≡ spot_after said spot.old }
{
    match machine::told(said, spot) {
        Some(true) => 2,
        Some(false) => 1,
        None => 0,
    }
}

// 1 for a turn that is not finished, 2 for one that is, with the next family, and the table where it is finished; 0 for a refusal, which
// leaves both as they are.
pub fn turn_file(
    bytes: &[u8],
    family: &mut [u64; 448],
    table: &mut [u16],
    spot: &mut [u64; 4],
) -> u32
    ensures number { result ≡ told_number (turn_file bytes.now family.old (length table.old)) }
    ensures rows { family.new ≡ turn_file_rows bytes.now family.old (length table.old) }
    ensures entries { table.new ≡ turn_file_table bytes.now family.old table.old }
    ensures numbers { spot.new ≡ spot_after (turn_file bytes.now family.old (length table.old)) spot.old }
{
    number_told(turn_bytes(bytes, family, table), spot)
}

// 1 for a pair that is struck out, 2 for one that is still in, 0 for a refusal.
pub fn look_up_file(
    bytes: &[u8],
    family: &[u64; 448],
    section: usize,
    c: usize,
    a: usize,
    spot: &mut [u64; 4],
) -> u32
    ensures number { result ≡ told_number (look_up_file bytes.now family.now section c a) }
    ensures numbers { spot.new ≡ spot_after (look_up_file bytes.now family.now section c a) spot.old }
{
    number_told(look_up_bytes(bytes, family, section, c, a), spot)
}
