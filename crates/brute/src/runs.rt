// The plain reading of document 01's "Player", with the single step of document 02, No. 10.
ghost use Rattle.std.specs.Prelude.{◌≡◌, ◌+◌, ◌*◌, ◌<◌, ◌≤◌, eqb, get_or, length};
ghost use Rattle.machine.specs.Lassos.{lasso_length};
ghost use Rattle.mask.specs.Bounded.{every, some, first, below};
ghost use Rattle.mask.specs.Logic.{and};
ghost use Rattle.machine.specs.Machines.{sets_a};
ghost use Rattle.machine.specs.WellFormed.{well_formed};
ghost use Rattle.machine.specs.Step.{present_of, staying, single_step};
ghost use Rattle.machine.specs.Table.{entry};
ghost use Rattle.machine.specs.Lines.{non_blank};
ghost use Rattle.machine.specs.Player.{section_after, step_to, place_at, same_place, last_round, play_answer};
ghost use Rattle.brute.specs.Given.{lent};
ghost use Rattle.brute.specs.Runs.{as_place};

use crate::lassos::Lasso;
use crate::lines::Tabled;
use crate::lists::element_or;
use crate::machines::{is_matched, successors_of, validity};
use machine::{Pair, Refusal, Run};

// The abstract state a and the section j. (The definitions have places of a type of their own: `as_place` says which one a spot is.)
#[derive(Clone, Copy, PartialEq, Eq)]
struct Spot {
    state: usize,
    section: usize,
}

// Twice the entry e of a state, and one more unless it is the present state: a number and no tuple, as the definition `staying` orders states by it.
fn staying_key(present: Option<usize>, a: usize, e: u16) -> u32
    requires { a < 64 }
    ensures { result ≡ staying (present_of present) (λ _. e) a }
{
    2 * u32::from(e) + u32::from(present != Some(a))
}

impl<'a> Tabled<'a> {
    // Of the states of a mask, the matched one of least entry in section j beside d, and none that is blank; of equal ones the state `present`, then
    // the lowest number.
    fn least_partner(&self, present: Option<usize>, moves: u64, j: usize, d: usize) -> Option<usize>
        requires { (j < 7) × (d < 256) }
        ensures { result ≡ single_step (present_of present) moves (non_blank self.now.pair.now self.now.table.now j d) (entry self.now.pair.now self.now.table.now j d) }
    {
        let mut best = None;
        // one pass that keeps the least key: filter and min_by_key would read each entry twice, first to leave out the blank ones;
        // the first limit is twice a blank entry, and every other has a lower key
        let mut limit: u32 = 131070;
        for a in 0..64 {
            if mask::has(moves, a) && is_matched(self.pair, d, a) {
                let key = staying_key(present, a, self.entry_at(j, d, a));
                if key < limit {
                    best = Some(a);
                    limit = key;
                }
            }
        }
        best
    }

    // The section after the change: the next one where the pair's entry is 0.
    fn section_after(&self, c: usize, at: Spot) -> usize
        requires { (c < 256) × ((at.state ≤ 64) × (at.section < sets_a self.now.pair.now)) }
        ensures { result ≡ section_after self.now.pair.now self.now.table.now c (as_place at) }
    {
        let abstraction = &self.pair.abstraction;
        if self.entry_at(at.section, c, at.state) == 0 {
            machine::next_section(abstraction.sets, at.section)
        } else {
            at.section
        }
    }

    // The place at the next moment.
    fn step_to(&self, c: usize, at: Spot, d: usize) -> Spot
        requires { (c < 256) × ((d < 256) × ((at.state ≤ 64) × (at.section < sets_a self.now.pair.now))) }
        ensures { as_place result ≡ step_to self.now.pair.now self.now.table.now c (as_place at) d }
    {
        let j = self.section_after(c, at);
        let moves = successors_of(&self.pair.abstraction, at.state);
        let found = self.least_partner(Some(at.state), moves, j, d);
        Spot {
            state: found.unwrap_or(0),
            section: j,
        }
    }

    // The place at moment t, by the rule from the start.
    fn place_at(&self, lasso: &Lasso, t: usize) -> Spot
        ensures { as_place result ≡ place_at self.now.pair.now self.now.table.now (lent lasso.now) t }
    {
        let abstraction = &self.pair.abstraction;
        let found = self.least_partner(None, abstraction.start, 0, lasso.moment_at(0) as usize);
        let mut at = Spot {
            state: found.unwrap_or(0),
            section: 0,
        };
        // a loop and no `fold`: a step asks that the place before it is within the counts, as the loop's invariant says
        for i in 0..t {
            let c = lasso.moment_at(i) as usize;
            let d = lasso.moment_at(i + 1) as usize;
            at = self.step_to(c, at, d);
        }
        at
    }
}

// A table, and a lasso of at most 64 states, at whose loop starts the places are compared.
#[derive(Clone, Copy)]
struct Rounds<'a> {
    tabled: Tabled<'a>,
    lasso: Lasso<'a>,
    ghost is_short: { lasso_length (lent lasso) ≤ 64 },
}

impl<'a> Rounds<'a> {
    // The place at the loop's start after x rounds.
    fn place_after(&self, x: usize) -> Spot
        requires { x ≤ 449 }
        ensures { as_place result ≡ place_at self.now.tabled.pair.now self.now.tabled.table.now (lent self.now.lasso) (length self.now.lasso.stem.now + x * length self.now.lasso.cycle.now) }
    {
        let lasso = &self.lasso;
        self.tabled
            .place_at(lasso, lasso.stem.len() + x * lasso.cycle.len())
    }

    // Whether a and j are the same at the loop starts after x and after y rounds.
    fn same_place(&self, x: usize, y: usize) -> bool
        requires { (x ≤ 449) × (y ≤ 449) }
        ensures { result ≡ same_place self.now.tabled.pair.now self.now.tabled.table.now (lent self.now.lasso) x y }
    {
        self.place_after(x) == self.place_after(y)
    }

    // The first round before round y with the same place.
    fn earlier_round(&self, y: usize) -> Option<usize>
        requires { y ≤ 449 }
        ensures { result ≡ below y (first y (λ x. same_place self.now.tabled.pair.now self.now.tabled.table.now (lent self.now.lasso) x y)) }
    {
        (0..y).find(|x| self.same_place(*x, y))
    }

    // Whether a round before round y has the same place.
    fn recurs(&self, y: usize) -> bool
        requires { y ≤ 449 }
        ensures { result ≡ some y (λ x. same_place self.now.tabled.pair.now self.now.tabled.table.now (lent self.now.lasso) x y) }
    {
        self.earlier_round(y).is_some()
    }

    // The first round whose place occurred before.
    fn last_round(&self) -> Option<usize>
        ensures { result ≡ below 449 (last_round self.now.tabled.pair.now self.now.tabled.table.now (lent self.now.lasso)) }
    {
        (0..449).find(|y| self.recurs(*y))
    }
}

// What the player says of any table and any lasso, where its buffers are long enough.
pub fn plain_play(p: Pair, table: &[u16], lasso: Lasso) -> Result<Run, Refusal>
    ensures { result ≡ play_answer p table.now (lent lasso.entry) }
{
    let abstraction = &p.abstraction;
    validity(p)?;
    let tabled = Tabled { pair: &p, table };
    tabled.lines()?;
    lasso.fits(p.concrete)?;
    let first = lasso.moment_at(0) as usize;
    tabled
        .least_partner(None, abstraction.start, 0, first)
        .ok_or(Refusal::NoStartPartner)?;
    let rounds = Rounds { tabled, lasso };
    let y = rounds.last_round().unwrap_or(449);
    let x = rounds.earlier_round(y).unwrap_or(y);
    Ok(Run {
        stem: lasso.stem.len() + x * lasso.cycle.len(),
        cycle: (y - x) * lasso.cycle.len(),
    })
}

// Whether a run of n states is that of the rule; of a pair that is not well formed there is none.
pub fn is_run(p: Pair, table: &[u16], lasso: Lasso, run: &[u8], n: usize) -> bool
    ensures { result ≡ and (well_formed p) (every n (λ t. eqb (get_or run.now t 0)
        (place_at p table.now (lent lasso.entry) t).state)) }
{
    if validity(p).is_err() {
        return false;
    }
    let tabled = Tabled { pair: &p, table };
    (0..n).all(|t| usize::from(element_or(run, t, 0)) == tabled.place_at(&lasso, t).state)
}
