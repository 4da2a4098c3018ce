// From a file's bytes to the whole answer: the file is read, and its table checked.
#![tactic(auto)]

ghost use Rattle.std.specs.Prelude.{◌≡◌};
ghost use Rattle.machine.specs.Verdict.{check_verdict};
ghost use Rattle.codec.specs.Reader.{taken};
ghost use Rattle.codec.specs.Outcomes.{outcome_after};
ghost use Rattle.verdict.specs.Outcomes.{file_outcome};

use machine::{Pair, Refusal, Verdict};

// What is said of a file that was read, with these machines: what the check says of the table that came with them, or that none came.
pub fn table_verdict(pair: Pair, has_table: bool, table: &[u16]) -> Result<Option<Verdict>, Refusal>
    ensures { result ≡ outcome_after check_verdict table.now (taken pair has_table) }
{
    if !has_table {
        return Ok(None);
    }
    let checked = linecheck::check_table(pair, table)?;
    Ok(Some(checked.verdict))
}

// What is said of the file with these bytes: what the check says of its table, or that it has none; or where it was stopped.
// Each caller of the reader lends a table of its own and passes a refusal on directly: document 01 names this form.
pub fn file_verdict(bytes: &[u8]) -> Result<Option<Verdict>, Refusal>
    ensures { result ≡ file_outcome bytes.now }
{
    let mut table = [0u16; machine::TABLE_ROOM];
    let show = codec::reader::read_file(bytes, &mut table);
    let has_table = show.reading?;
    table_verdict(show.pair, has_table, &table)
}
