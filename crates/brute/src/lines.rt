// The plain reading of document 01's "Line check".
ghost use Rattle.std.specs.Prelude.{true, ◌≡◌, ◌<◌, ◌≤◌, get_or, Ok};
ghost use Rattle.mask.specs.Bounded.{first, below, some_in};
ghost use Rattle.machine.specs.Machines.{successors, n_c, n_a, sets_a};
ghost use Rattle.machine.specs.WellFormed.{has_empty_set, well_formed};
ghost use Rattle.machine.specs.Step.{steps};
ghost use Rattle.machine.specs.Ranks.{level_of, set_of};
ghost use Rattle.machine.specs.Table.{entry, covered_count};
ghost use Rattle.machine.specs.Lines.{passes, goal_line, rank_line, lines_validity};
ghost use Rattle.machine.specs.Verdict.{start_covered, lacking_start, start_verdict, verdict_of, empty_set_of, check_verdict, check_empty_set};
ghost use Rattle.brute.specs.Lines.{hit, in_target, fails, row_fails, section_fails};

use crate::lists::element_or;
use crate::machines::{has_empty_set, has_move, has_start, in_set, is_matched, validity};
use machine::{Checked, Pair, Refusal, Verdict};

// The entries that a line steps into: those that are not blank, those that are 0 or have a smaller l, those that are at most a number.
// An enum and no closure: the definition `in_target` takes the three as data, and a closure's contract would have to state that predicate once more.
#[derive(Clone, Copy)]
pub enum Target {
    NonBlank,
    Lower(usize),
    AtMost(u16),
}

// A well-formed pair with a table, whose entries are looked at.
#[derive(Clone, Copy)]
pub struct Tabled<'a> {
    pub pair: &'a Pair,
    pub table: &'a [u16],
    pub ghost well: { well_formed pair.now ≡ true },
}

// An entry's l and k, k counted from 0. The line check has the same struct; brute force shares no code with it.
#[derive(Clone, Copy)]
struct Level {
    level: usize,
    set: usize,
}

// Entry number i of a table, 0 past its end.
pub fn value_at(table: &[u16], i: usize) -> u16
    ensures { result ≡ get_or table.now i 0 }
{
    element_or(table, i, 0)
}

// The l and k of an entry that is not 0.
fn level_of(m: usize, e: u16) -> Level
    requires { (0 < m) × (0 < e) }
    ensures { result ≡ record { level = level_of m e; set = set_of m e } }
{
    let rest = e as usize - 1;
    Level {
        level: rest / m + 1,
        set: rest % m,
    }
}

// Whether an entry is one that a line steps into.
fn hits(t: Target, m: usize, e: u16) -> bool
    requires { 0 < m }
    ensures { result ≡ hit t m e }
{
    match t {
        Target::NonBlank => e != machine::BLANK,
        Target::Lower(l) => { e == 0 || level_of(m, e).level < l }
        Target::AtMost(r) => e <= r,
    }
}

impl<'a> Tabled<'a> {
    // The entry of (c, a) in section j. Its place is computed from the counts, as section and states are from a number elsewhere: a table is one buffer
    // without rows, as its file has it, and the counts are no constants.
    pub fn entry_at(&self, j: usize, c: usize, a: usize) -> u16
        requires { (j < 7) × ((c < 256) × (a ≤ 64)) }
        ensures { result ≡ entry self.now.pair.now self.now.table.now j c a }
    {
        let concrete = &self.pair.concrete;
        let abstraction = &self.pair.abstraction;
        value_at(
            self.table,
            (j * concrete.states + c) * abstraction.states + a,
        )
    }

    // Whether some successor of a is matched with d and has, beside it in section j, an entry that the line steps into.
    fn finds(&self, t: Target, j: usize, d: usize, a: usize) -> bool
        requires { (j < 7) × (d ≤ 64) }
        ensures { result ≡ some_in (n_a self.now.pair.now) (successors self.now.pair.now.abstraction a) (in_target self.now.pair.now self.now.table.now t j d) }
    {
        let concrete = &self.pair.concrete;
        let abstraction = &self.pair.abstraction;
        (0..abstraction.states).any(|b| {
            has_move(abstraction, a, b)
                && is_matched(self.pair, d, b)
                && hits(t, concrete.sets, self.entry_at(j, d, b))
        })
    }

    // Whether (c, a) steps into the entries of section j that the line asks for.
    pub fn steps_into(&self, t: Target, j: usize, c: usize, a: usize) -> bool
        requires { j < 7 }
        ensures { result ≡ steps self.now.pair.now (in_target self.now.pair.now self.now.table.now t j) c a }
    {
        let concrete = &self.pair.concrete;
        (0..concrete.states).all(|d| !has_move(concrete, c, d) || self.finds(t, j, d, a))
    }

    // Entry 0: a is in set j, and the pair steps into the non-blank pairs of the next section.
    pub fn goal_holds(&self, j: usize, c: usize, a: usize) -> bool
        requires { j < sets_a self.now.pair.now }
        ensures { result ≡ goal_line self.now.pair.now self.now.table.now j c a }
    {
        let abstraction = &self.pair.abstraction;
        let next = machine::next_section(abstraction.sets, j);
        in_set(abstraction, j, a) && self.steps_into(Target::NonBlank, next, c, a)
    }

    // Entry e > 0: if c is in set k, the pair steps into entries that are 0 or have a smaller l, else into those that are at most e.
    fn rank_holds(&self, j: usize, e: u16, c: usize, a: usize) -> bool
        requires { (j < 7) × (0 < e) }
        ensures { result ≡ rank_line self.now.pair.now self.now.table.now j e c a }
    {
        let concrete = &self.pair.concrete;
        let rank = level_of(concrete.sets, e);
        if in_set(concrete, rank.set, c) {
            self.steps_into(Target::Lower(rank.level), j, c, a)
        } else {
            self.steps_into(Target::AtMost(e), j, c, a)
        }
    }

    // Whether the entry of (c, a) in section j passes.
    pub fn entry_passes(&self, j: usize, c: usize, a: usize) -> bool
        requires { (j < sets_a self.now.pair.now) × ((c ≤ 64) × (a ≤ 64)) }
        ensures { result ≡ passes self.now.pair.now self.now.table.now j c a }
    {
        let concrete = &self.pair.concrete;
        let abstraction = &self.pair.abstraction;
        let e = self.entry_at(j, c, a);
        if e == machine::BLANK {
            return true;
        }
        if !is_matched(self.pair, c, a) {
            return false;
        }
        if e as usize > concrete.sets * (concrete.states * abstraction.states) {
            return false;
        }
        if e == 0 {
            return self.goal_holds(j, c, a);
        }
        self.rank_holds(j, e, c, a)
    }

    // The lowest a whose entry beside c in section j fails.
    fn failing_state(&self, j: usize, c: usize) -> Option<usize>
        requires { (j < sets_a self.now.pair.now) × (c ≤ 64) }
        ensures { result ≡ below (n_a self.now.pair.now) (first (n_a self.now.pair.now) (fails self.now.pair.now self.now.table.now j c)) }
    {
        let abstraction = &self.pair.abstraction;
        (0..abstraction.states).find(|a| !self.entry_passes(j, c, *a))
    }

    // The lowest c in whose row of section j an entry fails.
    fn failing_row(&self, j: usize) -> Option<usize>
        requires { j < sets_a self.now.pair.now }
        ensures { result ≡ below (n_c self.now.pair.now) (first (n_c self.now.pair.now) (row_fails self.now.pair.now self.now.table.now j)) }
    {
        let concrete = &self.pair.concrete;
        (0..concrete.states).find(|c| self.failing_state(j, *c).is_some())
    }

    // The lowest section in which an entry fails.
    fn failing_section(&self) -> Option<usize>
        ensures { result ≡ below (sets_a self.now.pair.now) (first (sets_a self.now.pair.now) (section_fails self.now.pair.now self.now.table.now)) }
    {
        let abstraction = &self.pair.abstraction;
        (0..abstraction.sets).find(|j| self.failing_row(*j).is_some())
    }

    // 12, with the first entry that fails; the spot's section is counted from 1.
    pub fn lines(&self) -> Result<(), Refusal>
        ensures { result ≡ lines_validity self.now.pair.now self.now.table.now }
    {
        let Some(j) = self.failing_section() else {
            return Ok(());
        };
        let c = self.failing_row(j).unwrap_or(0);
        let a = self.failing_state(j, c).unwrap_or(0);
        Err(Refusal::FailingEntry {
            section: j + 1,
            c,
            a,
        })
    }

    // How many of the n x P entries are not blank.
    fn covered(&self) -> usize
        ensures { result ≡ covered_count self.now.pair.now self.now.table.now }
    {
        let concrete = &self.pair.concrete;
        let abstraction = &self.pair.abstraction;
        let entries = abstraction.sets * (concrete.states * abstraction.states);
        (0..entries)
            .filter(|e| value_at(self.table, *e) != machine::BLANK)
            .count()
    }

    // Whether c has an abstract start state beside it that is not blank in section 1.
    fn start_covered(&self, c: usize) -> bool
        requires { c ≤ 64 }
        ensures { result ≡ start_covered self.now.pair.now self.now.table.now c }
    {
        let abstraction = &self.pair.abstraction;
        (0..abstraction.states).any(|a| {
            has_start(abstraction, a) && self.entry_at(0, c, a) != machine::BLANK
        })
    }

    // The lowest concrete start state that has none.
    fn lacking_start(&self) -> Option<usize>
        ensures { result ≡ below (n_c self.now.pair.now) (lacking_start self.now.pair.now self.now.table.now) }
    {
        let concrete = &self.pair.concrete;
        (0..concrete.states).find(|c| has_start(concrete, *c) && !self.start_covered(*c))
    }

    // What is said of a table that passes each line.
    fn start_checked(&self) -> Checked
        ensures verdict { result.verdict ≡ start_verdict self.now.pair.now self.now.table.now }
        ensures empty { result.empty_set ≡ has_empty_set self.now.pair.now.concrete }
    {
        let covered = self.covered();
        let verdict = match self.lacking_start() {
            Some(lacking) => Verdict::NotCarried { lacking, covered },
            None => Verdict::Carried { covered },
        };
        let concrete = &self.pair.concrete;
        Checked {
            verdict,
            empty_set: has_empty_set(concrete),
        }
    }
}

// What the check says of any table of any pair.
pub fn plain_verdict(p: Pair, table: &[u16]) -> Result<Checked, Refusal>
    ensures verdict { verdict_of result ≡ check_verdict p table.now }
    ensures empty { empty_set_of result ≡ check_empty_set p table.now }
{
    if table.len() < machine::TABLE_ROOM {
        return Err(Refusal::ShortBuffer);
    }
    validity(p)?;
    let tabled = Tabled { pair: &p, table };
    tabled.lines()?;
    Ok(tabled.start_checked())
}
