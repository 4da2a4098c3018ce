// The solver by turns beside brute force: what a turn says, the family and the table that it leaves, and every look-up, for families of any content
// and for those from the first to the finish.
ghost use Rattle.std.specs.Prelude.{◌≡◌, ◌≤◌, length};
ghost use Rattle.machine.specs.Table.{table_room};
ghost use Rattle.progress.specs.Turns.{turn_family};
ghost use Rattle.comparison.specs.Answers.{says_yes};
ghost use Rattle.comparison.specs.Turns.{marks, kept_from, same_entries, rows_fit, table_fits, left_fits, turn_agrees, turn_said, turn_tally, in_range, plain_look_up, look_up_tally, look_ups_tally, family_tally, families_tally, first_fits, first_agrees, end_agrees, walk_tally, turns_tally, stopped_tally};

use crate::tables::is_within;
use crate::tally::{Tally, total};
use brute::Compared;
use machine::{Formed, Pair, Refusal};

// What a lent table is full of: no rank, and not blank.
const MARK: u16 = 40000;

// A pair, and what brute force says of it: what its tests say, and if they refuse nothing how many entries, sections and states there are, else 0.
// No `Result` holds these: look-ups are tried of a refused pair too, by the same numbers.
#[derive(Clone, Copy)]
struct Known {
    pair: Pair,
    plain: Result<(), Refusal>,
    entries: usize,
    sections: u8,
    concretes: u8,
    abstractions: u8,
}

// A family that was compared: the counts, and whether its turn is finished.
#[derive(Clone, Copy)]
struct Step {
    tally: Tally,
    finished: bool,
}

// ---- A turn

// A table as it is lent.
fn full() -> [u16; 28672]
    ensures { result ≡ marks }
{
    [MARK; machine::TABLE_ROOM]
}

// Whether each entry from a number on is as it was lent.
fn is_kept(from: usize, table: &[u16; 28672]) -> bool
    ensures { result ≡ kept_from from table.now }
{
    let from = from.min(machine::TABLE_ROOM);
    table[from..] == full()[from..]
}

// Whether the next family has the pairs with a rank over the given one, and no stray bits.
#[tactic(auto, unfolding(crate::specs::Turns::rows_fit, mask::specs::Logic::and))]
fn rows_fit(p: Pair, given: &[u16], next: &[u64; 448]) -> bool
    ensures { result ≡ rows_fit p given.now next.now }
{
    if !brute::holds_pairs(p, next) {
        return false;
    }
    let mut seen = [0u16; machine::TABLE_ROOM];
    brute::put_family(p, next, &mut seen);
    brute::is_ranked(p, Compared::Covered, given, &seen)
}

// Whether a finished turn wrote n entries, the ranks over the family.
#[tactic(auto, unfolding(crate::specs::Turns::table_fits, mask::specs::Logic::and))]
fn table_fits(p: Pair, n: usize, given: &[u16], table: &[u16; 28672]) -> bool
    ensures { result ≡ table_fits p n given.now table.now }
{
    is_kept(n, table) && brute::is_ranked(p, Compared::Ranks, given, table)
}

impl Known {
    // Whether a turn of a pair that is not refused left a family that fits, and wrote the table only if that is the one before.
    #[tactic(auto, using(crate::proofs::EqualLaws::rows_told), unfolding(crate::specs::Turns::left_fits, mask::specs::Logic::and))]
    fn left_fits(&self, family: &[u64; 448], next: &[u64; 448], table: &[u16; 28672]) -> bool
        ensures { result ≡ left_fits self.now family.now next.now table.now }
    {
        let mut given = [0u16; machine::TABLE_ROOM];
        brute::put_family(self.pair, family, &mut given);
        rows_fit(self.pair, &given, next)
            && if family == next {
                table_fits(self.pair, self.entries, &given, table)
            } else {
                is_kept(0, table)
            }
    }

    // Whether a turn said what brute force says, and left the family and the table that it has to leave.
    #[tactic(auto, using(crate::proofs::EqualLaws::rows_told, crate::proofs::EqualLaws::bools_told), unfolding(crate::specs::Turns::turn_agrees, crate::specs::Turns::plain_agrees, crate::specs::Turns::made_agrees, crate::specs::Turns::stopped_agrees, mask::specs::Logic::and))]
    fn turn_agrees(
        &self,
        said: Result<bool, Refusal>,
        family: &[u64; 448],
        next: &[u64; 448],
        table: &[u16; 28672],
    ) -> bool
        ensures { result ≡ turn_agrees self.now said family.now next.now table.now }
    {
        let same = family == next;
        match self.plain {
            Ok(()) => said == Ok(same) && self.left_fits(family, next, table),
            Err(refusal) => said == Err(refusal) && same && is_kept(0, table),
        }
    }

    // One turn.
    #[tactic(auto, unfolding(crate::specs::Turns::turn_tally, crate::specs::Turns::turn_said))]
    fn compare_turn(&self, family: &mut [u64; 448]) -> Step
        ensures tally { result.tally ≡ turn_tally self.now family.old }
        ensures finished { result.finished ≡ says_yes (turn_said self.now.pair family.old) }
        ensures family { family.new ≡ turn_family self.now.pair family.old (length marks) }
    {
        let mut table = [MARK; machine::TABLE_ROOM];
        let before = *family;
        let said = progress::turn(self.pair, family, &mut table);
        let finished = said.unwrap_or(false);
        let agrees = self.turn_agrees(said, &before, family, &table);
        Step {
            tally: Tally::of_turn(finished, agrees),
            finished,
        }
    }

    // ---- Look-ups

    // Whether a look-up's section, counted from 1, and states are in range.
    #[tactic(auto, unfolding(crate::specs::Turns::in_range, mask::specs::Logic::and, mask::specs::Logic::not))]
    fn in_range(&self, section: usize, c: usize, a: usize) -> bool
        ensures { result ≡ in_range self.now section c a }
    {
        section != 0
            && section <= usize::from(self.sections)
            && c < usize::from(self.concretes)
            && a < usize::from(self.abstractions)
    }

    // What a look-up has to say, where `given` covers what the family holds.
    #[tactic(auto, using(machine::specs::RefusalsLaws::then_of), unfolding(crate::specs::Turns::plain_look_up, crate::specs::Turns::in_range, mask::specs::Logic::and, mask::specs::Logic::not))]
    fn plain_look_up(
        &self,
        given: &[u16],
        section: usize,
        c: usize,
        a: usize,
    ) -> Result<bool, Refusal>
        ensures { result ≡ plain_look_up self.now given.now section c a }
    {
        self.plain?;
        if !self.in_range(section, c, a) {
            return Err(Refusal::OutOfRange);
        }
        let nc = usize::from(self.concretes);
        let na = usize::from(self.abstractions);
        let e = machine::entry_index(nc, na, section - 1, c, a);
        Ok(brute::value_at(given, e) != machine::BLANK)
    }

    // One look-up.
    #[tactic(auto, using(crate::proofs::EqualLaws::bools_told), unfolding(crate::specs::Turns::look_up_tally))]
    fn compare_look_up(
        &self,
        given: &[u16],
        family: &[u64; 448],
        section: usize,
        c: usize,
        a: usize,
    ) -> Tally
        ensures { result ≡ look_up_tally self.now given.now family.now section c a }
    {
        let said = progress::look_up(self.pair, family, section, c, a);
        let plain = self.plain_look_up(given, section, c, a);
        Tally::of_look_up(said.unwrap_or(false), said == plain)
    }

    // Every look-up of a family: sections, counted from 1, from 0 to one too many, and states up to one too many.
    fn compare_look_ups(&self, family: &[u64; 448]) -> Tally
        ensures { result ≡ look_ups_tally self.now family.now }
    {
        let mut given = [0u16; machine::TABLE_ROOM];
        brute::put_family(self.pair, family, &mut given);
        let row = usize::from(self.abstractions) + 1;
        let section = (usize::from(self.concretes) + 1) * row;
        let count = (usize::from(self.sections) + 2) * section;
        total(count as u64, |x| {
            let i = x as usize;
            self.compare_look_up(&given, family, i / section, i % section / row, i % row)
        })
    }

    // ---- Families

    // The turn of one family, and its look-ups.
    #[tactic(auto, unfolding(crate::specs::Turns::family_tally))]
    fn compare_family(&self, family: &mut [u64; 448]) -> Step
        ensures tally { result.tally ≡ family_tally self.now family.old }
        ensures finished { result.finished ≡ says_yes (turn_said self.now.pair family.old) }
        ensures family { family.new ≡ turn_family self.now.pair family.old (length marks) }
    {
        let looked_up = self.compare_look_ups(family);
        let step = self.compare_turn(family);
        Step {
            tally: step.tally + looked_up,
            finished: step.finished,
        }
    }

    // The first `count` families of all, whose rows are digits from 0 to `row`.
    fn compare_families(&self, row: u32, count: u64) -> Tally
        ensures { result ≡ families_tally self.now row count }
    {
        total(count, |x| {
            let mut family = brute::numbered_family(self.sections, self.concretes, row, x);
            self.compare_family(&mut family).tally
        })
    }

    // ---- From the first to the finish

    // Whether a first family has all matched pairs in every section and no stray bits. It begins as `rows_fit` does: a function of what both do would
    // have to give 57 KB back, or to take a closure for the rest.
    #[tactic(auto, unfolding(crate::specs::Turns::first_fits, mask::specs::Logic::and))]
    fn first_fits(&self, family: &[u64; 448]) -> bool
        ensures { result ≡ first_fits self.now family.now }
    {
        if !brute::holds_pairs(self.pair, family) {
            return false;
        }
        let mut seen = [0u16; machine::TABLE_ROOM];
        brute::put_family(self.pair, family, &mut seen);
        let mut matched = [0u16; machine::TABLE_ROOM];
        brute::put_family(self.pair, &[u64::MAX; 448], &mut matched);
        is_within(self.entries, &matched, &seen)
    }

    // Whether the first family is given, and fits, or refused as brute force says.
    #[tactic(auto, using(crate::proofs::EqualLaws::units_told), unfolding(crate::specs::Turns::first_agrees, crate::specs::Turns::given_agrees, mask::specs::Logic::and))]
    fn first_agrees(&self) -> bool
        ensures { result ≡ first_agrees self.now }
    {
        match progress::first_family(self.pair) {
            Ok(family) => self.plain.is_ok() && self.first_fits(&family),
            Err(refusal) => self.plain == Err(refusal),
        }
    }

    // Whether a turn after the finish is finished too, and writes the solver's entries.
    #[tactic(auto, unfolding(crate::specs::Turns::end_agrees, crate::specs::Turns::turn_said, mask::specs::Logic::and))]
    fn end_agrees(&self, family: &mut [u64; 448], solved: &[u16]) -> bool
        ensures { result ≡ end_agrees self.now.pair self.now.entries family.old solved.now }
    {
        let mut table = [MARK; machine::TABLE_ROOM];
        let said = progress::turn(self.pair, family, &mut table);
        said.unwrap_or(false) && same_entries(self.entries, &table, solved)
    }

    // The families from the first to the finish, which comes after at most n x P + 1 turns and with the solver's table. Where the first is refused, they
    // begin with zeros, as lists of turns do.
    fn compare_walk(&self, solved: &[u16]) -> Tally
        requires { self.now.entries ≤ table_room }
        ensures { result ≡ walk_tally self.now solved.now }
    {
        let mut family = progress::first_family(self.pair).unwrap_or([0; 448]);
        let mut sum = Tally::default();
        for _ in 0..self.entries + 1 {
            let step = self.compare_family(&mut family);
            sum = sum + step.tally;
            if step.finished {
                return sum + Tally::of_test(self.end_agrees(&mut family, solved));
            }
        }
        sum + Tally::of_test(false)
    }
}

// Whether two tables have the same n entries. Not by `==` of slices: a table may be shorter, and has 0 past its end.
fn same_entries(n: usize, x: &[u16], y: &[u16]) -> bool
    ensures { result ≡ same_entries n x.now y.now }
{
    (0..n).all(|e| brute::value_at(x, e) == brute::value_at(y, e))
}

// A pair that the solver takes, with its table: the first family, those up to the finish, and the first `count` of all.
#[tactic(auto, using(crate::proofs::SizeLaws::sizes), unfolding(crate::specs::Turns::turns_tally, crate::specs::Turns::known_of))]
pub fn compare_turns(
    formed: Formed,
    plain: Result<(), Refusal>,
    row: u32,
    count: u64,
    solved: &[u16],
) -> Tally
    ensures { result ≡ turns_tally formed.entry.pair.now plain row count solved.now }
{
    let pair = *formed.pair;
    let concrete = pair.concrete;
    let abstraction = pair.abstraction;
    let known = Known {
        pair,
        plain,
        entries: abstraction.sets * (concrete.states * abstraction.states),
        sections: abstraction.sets as u8,
        concretes: concrete.states as u8,
        abstractions: abstraction.states as u8,
    };
    let first = Tally::of_test(known.first_agrees());
    first + known.compare_walk(solved) + known.compare_families(row, count)
}

// A pair that the solver refuses: the first family, and one of which each row has two bits.
#[tactic(auto, unfolding(crate::specs::Turns::stopped_tally, crate::specs::Turns::unknown))]
pub fn compare_stopped(p: Pair, plain: Result<(), Refusal>) -> Tally
    ensures { result ≡ stopped_tally p plain }
{
    let known = Known {
        pair: p,
        plain,
        entries: 0,
        sections: 0,
        concretes: 0,
        abstractions: 0,
    };
    let step = known.compare_family(&mut [5; 448]);
    Tally::of_test(known.first_agrees()) + step.tally
}
