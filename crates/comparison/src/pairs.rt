// All that is compared of a pair, and of a series of pairs.
ghost use Rattle.std.specs.Prelude.{◌≡◌};
ghost use Rattle.comparison.specs.Pairs.{verdict_fits, solution_agrees, solution_tally, formed_tally, unsolved_tally, pair_tally, row_tally, series_tally};

use crate::lassos::compare_lassos;
use crate::tables::{Numbered, Tables, compare_table, is_within};
use crate::tally::{Tally, total};
use crate::turns::{compare_stopped, compare_turns};
use brute::{Compared, Shape};
use machine::{Formed, Pair};

// The numbers 0, step, 2 x step, .., so many of them.
#[derive(Clone, Copy)]
pub struct Numbers {
    pub count: u32,
    pub step: u32,
}

// What is tried of a pair. Tables: the first `tables` of all tables, or of the solver's with one entry changed (of a pair that the solver refuses,
// of the lifted one). Lassos: those with a stem of at most `stem` states. Families, beside those from the first to the finish: the first `families`
// of all whose rows are digits from 0 to `row`.
#[derive(Clone, Copy)]
pub struct Trial {
    pub which: Tables,
    pub tables: u64,
    pub stem: usize,
    pub families: u64,
    pub row: u32,
}

// The pairs of some concrete and some abstract machines under a hidden mask, and what is tried of each.
#[derive(Clone, Copy)]
pub struct Series {
    pub concrete: Shape,
    pub concretes: Numbers,
    pub abstraction: Shape,
    pub abstractions: Numbers,
    pub hidden: u8,
    pub trial: Trial,
}

// Whether the solver's table, whose own count is given, passes each line; and where all tables were tried, of which so many are Carried, whether it is
// Carried exactly if some table is.
#[tactic(auto, unfolding(crate::specs::Pairs::verdict_fits, crate::specs::Pairs::carried_fits, mask::specs::Logic::and, mask::specs::Logic::not))]
fn verdict_fits(own: Tally, carrying: Option<u64>) -> bool
    ensures { result ≡ verdict_fits own carrying }
{
    own.passing != 0
        && match carrying {
            Some(n) => (own.carrying == 0) == (n == 0),
            None => true,
        }
}

// Whether what is said of the solver's table fits, and it covers what the lifted one covers, and no more, and has the ranks.
#[tactic(auto, unfolding(crate::specs::Pairs::solution_agrees, mask::specs::Logic::and))]
fn solution_agrees(p: Pair, n: usize, fits: bool, lifted: &[u16], solved: &[u16]) -> bool
    ensures { result ≡ solution_agrees p n fits lifted.now solved.now }
{
    fits && is_within(n, lifted, solved)
        && is_within(n, solved, lifted)
        && brute::is_ranked(p, Compared::Ranks, lifted, solved)
}

// The solver's table of n entries beside the other algorithm's.
#[tactic(auto, unfolding(crate::specs::Pairs::solution_tally, mask::specs::Logic::not))]
fn compare_solution(p: Pair, n: usize, carrying: Option<u64>, solved: &[u16]) -> Tally
    ensures { result ≡ solution_tally p n carrying solved.now }
{
    let own = compare_table(p, n, solved, solved);
    let fits = verdict_fits(own, carrying);
    let mut lifted = [0u16; machine::TABLE_ROOM];
    brute::lift(p, &mut lifted);
    Tally::of_solution(
        own.carrying != 0,
        solution_agrees(p, n, fits, &lifted, solved),
    )
}

// A well-formed pair with a table: if it was solved, the solver's.
// Solver's and lifted table are used alike but for one comparison: an enum of the two would be taken apart again for the others.
#[tactic(auto, using(crate::proofs::SizeLaws::sizes), unfolding(crate::specs::Pairs::formed_tally, crate::specs::Pairs::tables_tally, crate::specs::Pairs::carried_of))]
fn compare_formed(formed: Formed, t: Trial, solved: bool, table: &[u16]) -> Tally
    ensures { result ≡ formed_tally t formed.entry.pair.now solved table.now }
{
    let p = *formed.pair;
    let pairs = p.concrete.states * p.abstraction.states;
    let n = p.abstraction.sets * pairs;
    let top = p.concrete.sets * pairs + 2;
    let numbered = Numbered {
        which: t.which,
        top: top as u16,
        n,
        solved: table,
    };
    let tables = numbered.compare(p, t.tables);
    let carrying = match t.which {
        Tables::Every => Some(tables.carrying),
        Tables::Altered => None,
    };
    let solution = if solved {
        compare_solution(p, n, carrying, table)
    } else {
        Tally::of_unsolved()
    };
    tables + solution + compare_lassos(p, table, p.concrete.states as u8, t.stem)
}

// A pair that the solver refuses. A well-formed one has an empty set, and is tried with the lifted table in place of the solver's.
fn compare_unsolved(p: Pair, t: Trial) -> Tally
    ensures { result ≡ unsolved_tally t p }
{
    if brute::validity(p).is_err() {
        return Tally::default();
    }
    let mut lifted = [0u16; machine::TABLE_ROOM];
    brute::lift(p, &mut lifted);
    let formed = Formed { pair: &p };
    compare_formed(formed, t, false, &lifted)
}

// Any pair.
#[tactic(auto, using(crate::proofs::EqualLaws::units_told, crate::specs::PairsLaws::solved_well), unfolding(crate::specs::Pairs::pair_tally, machine::specs::WellFormed::is_valid))]
pub fn compare_pair(p: Pair, t: Trial) -> Tally
    ensures { result ≡ pair_tally t p }
{
    let mut solved = [0u16; machine::TABLE_ROOM];
    let answer = solver::solve(p, &mut solved);
    let plain = brute::nonempty_validity(p);
    let tried = Tally::of_pair(answer == plain);
    match answer {
        Ok(()) => {
            let formed = Formed { pair: &p };
            let turns = compare_turns(formed, plain, t.row, t.families, &solved);
            tried + turns + compare_formed(formed, t, true, &solved)
        }
        Err(_) => tried + compare_stopped(p, plain) + compare_unsolved(p, t),
    }
}

// The pairs of one concrete machine.
fn compare_row(s: Series, x: u64) -> Tally
    ensures { result ≡ row_tally s x }
{
    let numbers = s.abstractions;
    total(u64::from(numbers.count), |i| {
        let y = i * u64::from(numbers.step);
        let p = brute::numbered_pair(s.concrete, s.abstraction, s.hidden, x, y);
        compare_pair(p, s.trial)
    })
}

// All pairs of a series.
pub fn compare(s: Series) -> Tally
    ensures { result ≡ series_tally s }
{
    let numbers = s.concretes;
    total(u64::from(numbers.count), |i| {
        compare_row(s, i * u64::from(numbers.step))
    })
}
