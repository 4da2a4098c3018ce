// The check beside the plain reading: on every table, or on the solver's table with one entry changed. Of a pair that the solver refuses the lifted
// table stands in its place.
ghost use Rattle.std.specs.Prelude.{◌≡◌};
ghost use Rattle.comparison.specs.Tallies.{total};
ghost use Rattle.comparison.specs.Tables.{zeros, within, is_carried, table_tally, altered, tried_table};

use crate::tally::Tally;
use machine::{Pair, Verdict};

// Whether, of n entries, `other` covers each that `table` covers.
pub fn is_within(n: usize, table: &[u16], other: &[u16]) -> bool
    ensures { result ≡ within n table.now other.now }
{
    (0..n).all(|e| {
        brute::value_at(table, e) == machine::BLANK || brute::value_at(other, e) != machine::BLANK
    })
}

// Whether a verdict is Carried.
#[tactic(auto, unfolding(crate::specs::Tables::is_carried))]
fn is_carried(verdict: Verdict) -> bool
    ensures { result ≡ is_carried verdict }
{
    matches!(verdict, Verdict::Carried { .. })
}

// One table of n entries: whether the check's answer is the plain reading's, and the solver's table covers a table that passes.
pub fn compare_table(p: Pair, n: usize, table: &[u16], solved: &[u16]) -> Tally
    ensures { result ≡ table_tally p n solved.now table.now }
{
    let answer = linecheck::check_table(p, table);
    let agrees = answer == brute::plain_verdict(p, table);
    match answer {
        Ok(said) => Tally::of_table(
            true,
            is_carried(said.verdict),
            said.empty_set,
            agrees && is_within(n, table, solved),
        ),
        Err(_) => Tally::of_table(false, false, false, agrees),
    }
}

// Which numbered tables are tried: an enum and no closure, as the definition `tried_table` takes it as data.
#[derive(Clone, Copy, Debug, PartialEq, Eq)]
pub enum Tables {
    // all tables
    Every,
    // those that differ from the solver's in one entry at most
    Altered,
}

// A pair's numbered tables, of n entries, each a digit from 0 to `top`; `solved` is the solver's.
#[derive(Clone, Copy)]
pub struct Numbered<'a> {
    pub which: Tables,
    pub top: u16,
    pub n: usize,
    pub solved: &'a [u16],
}

impl<'a> Numbered<'a> {
    // Puts the solver's n entries into `table`, entry x / (top + 1) changed to what digit x % (top + 1) stands for.
    fn put_altered(&self, x: u64, table: &mut [u16])
        ensures { table.new ≡ altered self.now.top x self.now.n self.now.solved.now table.old }
    {
        let base = self.top as u64 + 1;
        let changed = x / base;
        let value = brute::entry_of((x % base) as u16);
        let end = self.n.min(table.len());
        for (e, entry) in table[..end].iter_mut().enumerate() {
            *entry = if e as u64 == changed {
                value
            } else {
                brute::value_at(self.solved, e)
            };
        }
    }

    // Puts table number x into `table`.
    #[tactic(auto, unfolding(crate::specs::Tables::tried_table))]
    fn put(&self, x: u64, table: &mut [u16])
        ensures { table.new ≡ tried_table self.now.which self.now.top self.now.n self.now.solved.now x table.old }
    {
        match self.which {
            Tables::Every => brute::put_entries(x, self.top, self.n, table),
            Tables::Altered => self.put_altered(x, table),
        }
    }

    // The first `count` tables.
    pub fn compare(&self, p: Pair, count: u64) -> Tally
        ensures { result ≡ total count (λ x. table_tally p self.now.n self.now.solved.now (tried_table self.now.which self.now.top self.now.n self.now.solved.now x zeros)) }
    {
        let mut table = [0u16; machine::TABLE_ROOM];
        let mut sum = Tally::default();
        // not by `total`, whose closure writes nothing: each table is put over the last one, as zeroing 57 KB for each takes too long
        for x in 0..count {
            self.put(x, &mut table);
            sum = sum + compare_table(p, self.n, &table, self.solved);
        }
        sum
    }
}
