// Counts of what was compared. They are added modulo 2^64.
ghost use Rattle.std.specs.Prelude.{◌≡◌, ◌<◌, ℕ};
ghost use Rattle.comparison.specs.Tallies.{plus, total, of_pair, of_solution, of_unsolved, of_table, of_lasso, of_test, of_turn, of_look_up};

use std::ops::Add;

#[derive(Clone, Copy, Default)]
pub struct Tally {
    // pairs tried, those that are well formed, those that the solver takes, and of these those that its table carries
    pub pairs: u64,
    pub formed: u64,
    pub solved: u64,
    pub carried: u64,
    // tables that were checked, those that pass each line, of these those that are Carried, and those beside which a concrete set is empty
    pub tables: u64,
    pub passing: u64,
    pub carrying: u64,
    pub empty: u64,
    // lassos that were played, and those that gave a run
    pub lassos: u64,
    pub runs: u64,
    // turns that were made, those that were finished, pairs that were looked up in a section, and those that were still in
    pub turns: u64,
    pub finished: u64,
    pub lookups: u64,
    pub held: u64,
    // comparisons that failed
    pub differing: u64,
}

impl Tally {
    // One pair, with its refusals compared.
    #[tactic(auto, unfolding(crate::specs::Tallies::of_pair, crate::specs::Tallies::of_test))]
    pub(crate) fn of_pair(agrees: bool) -> Tally
        ensures { result ≡ of_pair agrees }
    {
        Tally {
            pairs: 1,
            ..Tally::of_test(agrees)
        }
    }

    // The solver's table of one pair.
    #[tactic(auto, unfolding(crate::specs::Tallies::of_solution, crate::specs::Tallies::of_test))]
    pub(crate) fn of_solution(carried: bool, agrees: bool) -> Tally
        ensures { result ≡ of_solution carried agrees }
    {
        Tally {
            formed: 1,
            solved: 1,
            carried: u64::from(carried),
            ..Tally::of_test(agrees)
        }
    }

    // One well-formed pair that the solver refuses.
    #[tactic(auto, unfolding(crate::specs::Tallies::of_unsolved, crate::specs::Tallies::nothing))]
    pub(crate) fn of_unsolved() -> Tally
        ensures { result ≡ of_unsolved }
    {
        Tally {
            formed: 1,
            ..Tally::default()
        }
    }

    // One table.
    #[tactic(auto, unfolding(crate::specs::Tallies::of_table, crate::specs::Tallies::of_test))]
    pub(crate) fn of_table(passing: bool, carried: bool, empty: bool, agrees: bool) -> Tally
        ensures { result ≡ of_table passing carried empty agrees }
    {
        Tally {
            tables: 1,
            passing: u64::from(passing),
            carrying: u64::from(carried),
            empty: u64::from(empty),
            ..Tally::of_test(agrees)
        }
    }

    // One lasso. Of lassos, turns and look-ups each has a function: no parameter names the two fields in which these differ.
    #[tactic(auto, unfolding(crate::specs::Tallies::of_lasso, crate::specs::Tallies::of_test))]
    pub(crate) fn of_lasso(runs: bool, agrees: bool) -> Tally
        ensures { result ≡ of_lasso runs agrees }
    {
        Tally {
            lassos: 1,
            runs: u64::from(runs),
            ..Tally::of_test(agrees)
        }
    }

    // One comparison that has no count of its own.
    #[tactic(auto, unfolding(crate::specs::Tallies::of_test, crate::specs::Tallies::nothing))]
    pub(crate) fn of_test(agrees: bool) -> Tally
        ensures { result ≡ of_test agrees }
    {
        Tally {
            differing: u64::from(!agrees),
            ..Tally::default()
        }
    }

    // One turn.
    #[tactic(auto, unfolding(crate::specs::Tallies::of_turn, crate::specs::Tallies::of_test))]
    pub(crate) fn of_turn(finished: bool, agrees: bool) -> Tally
        ensures { result ≡ of_turn finished agrees }
    {
        Tally {
            turns: 1,
            finished: u64::from(finished),
            ..Tally::of_test(agrees)
        }
    }

    // One look-up.
    #[tactic(auto, unfolding(crate::specs::Tallies::of_look_up, crate::specs::Tallies::of_test))]
    pub(crate) fn of_look_up(held: bool, agrees: bool) -> Tally
        ensures { result ≡ of_look_up held agrees }
    {
        Tally {
            lookups: 1,
            held: u64::from(held),
            ..Tally::of_test(agrees)
        }
    }
}

// Both counts together.
impl Add for Tally {
    type Output = Tally;

    #[tactic(auto, unfolding(crate::specs::Tallies::plus, crate::specs::Tallies::sum64))]
    fn add(self, other: Tally) -> Tally
        ensures { result ≡ plus self other }
    {
        Tally {
            pairs: self.pairs.wrapping_add(other.pairs),
            formed: self.formed.wrapping_add(other.formed),
            solved: self.solved.wrapping_add(other.solved),
            carried: self.carried.wrapping_add(other.carried),
            tables: self.tables.wrapping_add(other.tables),
            passing: self.passing.wrapping_add(other.passing),
            carrying: self.carrying.wrapping_add(other.carrying),
            empty: self.empty.wrapping_add(other.empty),
            lassos: self.lassos.wrapping_add(other.lassos),
            runs: self.runs.wrapping_add(other.runs),
            turns: self.turns.wrapping_add(other.turns),
            finished: self.finished.wrapping_add(other.finished),
            lookups: self.lookups.wrapping_add(other.lookups),
            held: self.held.wrapping_add(other.held),
            differing: self.differing.wrapping_add(other.differing),
        }
    }
}

// The counts f(0), .., f(n - 1) together.
pub(crate) fn total<F: Fn(u64) -> Tally>(n: u64, f: F) -> Tally
    requires { (x : ℕ) → x < n → F.pre f x }
    ensures { (g : ℕ → Tally) → ((x : ℕ) (t : Tally) → x < n → F.post f x t → t ≡ g x) → result ≡ total n g }
{
    let mut sum = Tally::default();
    for x in 0..n {
        sum = sum + f(x);
    }
    sum
}
