// The plain reading of lassos and of endless play.
ghost use Rattle.std.specs.Prelude.{◌≡◌, length, get_or};
ghost use Rattle.mask.specs.Bounded.{every, some, first, below};
ghost use Rattle.machine.specs.Machines.{observation, same_observation, in_fair_set};
ghost use Rattle.machine.specs.Lassos.{lasso_length, moment, is_lasso, is_fair, is_play};
ghost use Rattle.machine.specs.Player.{bad_step, missed_set, lasso_validity};
ghost use Rattle.brute.specs.Given.{lent};

use crate::machines::{has_move, has_start, in_set, observed};
use machine::{Machine, Refusal};

// A lasso, as its stem, which may be empty, and its loop are lent. The player has such a struct too; what it is tested by shares no code with it.
#[derive(Clone, Copy)]
pub struct Lasso<'a> {
    pub stem: &'a [u8],
    pub cycle: &'a [u8],
}

impl<'a> Lasso<'a> {
    // The state at moment t of the endless play.
    pub fn moment_at(&self, t: usize) -> u8
        ensures { result ≡ moment (lent self.now) t }
    {
        if t < self.stem.len() {
            return self.stem[t];
        }
        if self.cycle.is_empty() {
            return 0;
        }
        self.cycle[(t - self.stem.len()) % self.cycle.len()]
    }

    // Whether stem and loop are a lasso of the machine.
    fn is_lasso(&self, m: &Machine) -> bool
        ensures { result ≡ is_lasso m.now (lent self.now) }
    {
        !self.cycle.is_empty()
            && (0..self.stem.len() + self.cycle.len()).all(|t| {
                let s = self.moment_at(t) as usize;
                s < m.states && has_move(m, s, self.moment_at(t + 1) as usize)
            })
    }

    // Whether the loop has a state of set k.
    fn visits(&self, m: &Machine, k: usize) -> bool
        ensures { result ≡ some (length self.now.cycle.now) (λ i. in_fair_set m.now k (get_or self.now.cycle.now i 0)) }
    {
        self.cycle.iter().any(|s| in_set(m, k, *s as usize))
    }

    // Whether the loop has a state of each set.
    fn is_fair(&self, m: &Machine) -> bool
        ensures { result ≡ is_fair m.now (lent self.now) }
    {
        (0..m.sets).all(|k| self.visits(m, k))
    }

    // ---- Refusals 13 to 15

    // Whether 14 holds at position i.
    fn has_bad_step(&self, m: &Machine, i: usize) -> bool
        ensures { result ≡ bad_step m.now (lent self.now) i }
    {
        let s = self.moment_at(i) as usize;
        let entered = if i == 0 {
            has_start(m, s)
        } else {
            has_move(m, self.moment_at(i - 1) as usize, s)
        };
        let length = self.stem.len() + self.cycle.len();
        let is_last = i < length && i + 1 == length;
        s >= m.states || !entered || (is_last && !has_move(m, s, self.moment_at(i + 1) as usize))
    }

    // The lowest position at which 14 holds.
    fn first_bad(&self, m: &Machine) -> Option<usize>
        ensures { result ≡ below (lasso_length (lent self.now)) (first (lasso_length (lent self.now)) (bad_step m.now (lent self.now))) }
    {
        (0..self.stem.len() + self.cycle.len()).find(|i| self.has_bad_step(m, *i))
    }

    // The lowest set without a state of the loop.
    fn first_missed(&self, m: &Machine) -> Option<usize>
        ensures { result ≡ below m.now.sets (first m.now.sets (missed_set m.now (lent self.now))) }
    {
        (0..m.sets).find(|k| !self.visits(m, *k))
    }

    // 13 to 15 of the machine's lasso; the spot's set is counted from 1.
    pub fn fits(&self, m: Machine) -> Result<(), Refusal>
        ensures { result ≡ lasso_validity m (lent self.now) }
    {
        if self.cycle.is_empty() || self.stem.len() + self.cycle.len() > 64 {
            return Err(Refusal::BadLassoLength);
        }
        if let Some(position) = self.first_bad(&m) {
            return Err(Refusal::BadLassoStep { position });
        }
        match self.first_missed(&m) {
            Some(k) => Err(Refusal::UnfairLasso { set: k + 1 }),
            None => Ok(()),
        }
    }
}

// Whether a lasso is a fair one of the machine from a start state.
pub fn is_play(m: Machine, lasso: Lasso) -> bool
    ensures { result ≡ is_play m (lent lasso.entry) }
{
    lasso.is_lasso(&m) && lasso.is_fair(&m) && has_start(&m, lasso.moment_at(0) as usize)
}

// Whether two lassos have the same observations, in the bits that are not hidden, at the first n moments.
pub fn same_until(hidden: u8, m: Machine, lasso: Lasso, k: Machine, run: Lasso, n: usize) -> bool
    ensures { result ≡ every n (λ t. same_observation hidden (observation m (moment (lent lasso.entry) t))
        (observation k (moment (lent run.entry) t))) }
{
    (0..n).all(|t| {
        let s = observed(&m, lasso.moment_at(t) as usize);
        let u = observed(&k, run.moment_at(t) as usize);
        machine::same_observation(hidden, s, u)
    })
}
