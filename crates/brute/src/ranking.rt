// A solver by another algorithm, second half: ranks. Of few pairs X(l, k) is found by trying every set of pairs, from the largest number
// down, and no iteration; of more by striking out of all pairs, one at a time, those that do not meet its rule over what is left. What is
// covered comes from a lifted table.
ghost use Rattle.std.specs.Prelude.{◌≡◌, ◌*◌, ◌<◌, ◌≤◌, min, length};
ghost use Rattle.mask.specs.Bits.{full_mask};
ghost use Rattle.mask.specs.Bounded.{below};
ghost use Rattle.machine.specs.Machines.{pairs, sets_a, sets_c};
ghost use Rattle.brute.specs.Ranking.{keeps, unkept, closed, largest, struck, largest_set, marked, ranked, rank_of, shown_entry, section_ranked, table_ranked};
ghost use Rattle.brute.specs.Comparing.{is_exact};

use crate::lines::{Tabled, Target, value_at};
use crate::machines::{in_set, is_matched, validity};
use crate::numbers::put_entries;
use machine::Pair;

// Room for the pairs of any two machines: 64 x 64.
const PAIR_ROOM: usize = 4096;

// What of a table is compared: its entries, or only which pairs they cover, as of the family that a turn makes.
// An enum and no closure: the definitions take it as data, and a closure that shows an entry would have to promise `shown_entry` all the same.
#[derive(Clone, Copy, Debug, PartialEq, Eq)]
pub enum Compared {
    Ranks,
    Covered,
}

// Section j of a lifted table, whose ranks are looked for.
#[derive(Clone, Copy)]
struct Section<'a> {
    lifted: Tabled<'a>,
    j: usize,
    ghost in_range: { j < sets_a lifted.pair.now },
}

// Of the first n pairs, gives rank r to those of a set that have none yet.
fn mark(n: usize, set: &[u16], r: u16, ranks: &mut [u16])
    requires { n ≤ length ranks.old }
    ensures { ranks.new ≡ marked n set.now r ranks.old }
{
    for (e, rank) in ranks[..n].iter_mut().enumerate() {
        if value_at(set, e) != machine::BLANK && *rank == machine::BLANK {
            *rank = r;
        }
    }
}

// An entry; where it need not be exact, 0 for each that is not blank.
fn shown(compared: Compared, e: u16) -> u16
    ensures { result ≡ shown_entry (is_exact compared) e }
{
    match compared {
        Compared::Ranks => e,
        Compared::Covered if e == machine::BLANK => e,
        Compared::Covered => 0,
    }
}

impl<'a> Section<'a> {
    // How many pairs of states the machines have.
    fn pairs(&self) -> usize
        ensures { result ≡ pairs self.now.lifted.pair.now }
    {
        self.lifted.pair.concrete.states * self.lifted.pair.abstraction.states
    }

    // Whether (c, a) meets the rule of X(l, k) over a set that is given as a table: it is a goal, or steps into level l - 1, whose entries in
    // `ranks` are at most `low`, or has c outside set k and steps into the set.
    fn is_kept(&self, ranks: &[u16], low: u16, k: usize, set: &[u16], c: usize, a: usize) -> bool
        ensures { result ≡ keeps self.now.lifted.pair.now self.now.lifted.table.now self.now.j ranks.now low k set.now c a }
    {
        let pair = self.lifted.pair;
        let ranked = Tabled { pair, table: ranks };
        let kept = Tabled { pair, table: set };
        is_matched(pair, c, a)
            && (self.lifted.goal_holds(self.j, c, a)
                || ranked.steps_into(Target::AtMost(low), 0, c, a)
                || (!in_set(&pair.concrete, k, c) && kept.steps_into(Target::NonBlank, 0, c, a)))
    }

    // The first pair of a set that does not meet the rule of X(l, k) over it; rank number i + 1 is that of l and k.
    fn first_unkept(&self, ranks: &[u16], i: usize, set: &[u16]) -> Option<usize>
        requires { i < sets_c self.now.lifted.pair.now * pairs self.now.lifted.pair.now }
        ensures { result ≡ below (pairs self.now.lifted.pair.now) (unkept self.now.lifted.pair.now self.now.lifted.table.now self.now.j ranks.now i set.now) }
    {
        let concrete = &self.lifted.pair.concrete;
        let abstraction = &self.lifted.pair.abstraction;
        let low = (i / concrete.sets * concrete.sets) as u16;
        let k = i % concrete.sets;
        (0..self.pairs()).find(|e| {
            // computed from the counts, as in `Tabled::entry_at`
            let c = *e / abstraction.states;
            let a = *e % abstraction.states;
            value_at(set, *e) != machine::BLANK && !self.is_kept(ranks, low, k, set, c, a)
        })
    }

    // Whether each pair of set number x meets that rule over it.
    fn is_closed(&self, ranks: &[u16], i: usize, x: u64) -> bool
        requires { i < sets_c self.now.lifted.pair.now * pairs self.now.lifted.pair.now }
        ensures { result ≡ closed self.now.lifted.pair.now self.now.lifted.table.now self.now.j ranks.now i x }
    {
        let pairs = self.pairs();
        let mut set = [machine::BLANK; 64];
        put_entries(x, 1, pairs, &mut set);
        self.first_unkept(ranks, i, &set).is_none()
    }

    // The number of the largest such set: the greatest number, as the union of such sets is one.
    fn largest_set(&self, ranks: &[u16], i: usize) -> u64
        requires { i < sets_c self.now.lifted.pair.now * pairs self.now.lifted.pair.now }
        ensures { result ≡ largest self.now.lifted.pair.now self.now.lifted.table.now self.now.j ranks.now i (full_mask (min (pairs self.now.lifted.pair.now) 64)) }
    {
        // a loop and no `find`: the library's laws of it are of ranges that are gone through from below
        for x in (1..=mask::full(self.pairs())).rev() {
            if self.is_closed(ranks, i, x) {
                return x;
            }
        }
        0
    }

    // Strikes out of a set the pairs that do not meet the rule, the first such pair each time. Pairs of a set that meets it are never struck out of
    // a larger one, so that the largest is left.
    fn strike_out(&self, ranks: &[u16], i: usize, set: &mut [u16])
        requires { (i < sets_c self.now.lifted.pair.now * pairs self.now.lifted.pair.now) × (pairs self.now.lifted.pair.now ≤ length set.old) }
        ensures { set.new ≡ struck self.now.lifted.pair.now self.now.lifted.table.now self.now.j ranks.now i (pairs self.now.lifted.pair.now) set.old }
    {
        let pairs = self.pairs();
        for _ in 0..pairs {
            match self.first_unkept(ranks, i, set) {
                Some(e) => set[e] = machine::BLANK,
                None => return,
            }
        }
    }

    // Puts X(l, k) into `set`, which has all pairs.
    fn put_largest(&self, ranks: &[u16], i: usize, set: &mut [u16])
        requires { (i < sets_c self.now.lifted.pair.now * pairs self.now.lifted.pair.now) × (pairs self.now.lifted.pair.now ≤ length set.old) }
        ensures { set.new ≡ largest_set self.now.lifted.pair.now self.now.lifted.table.now self.now.j ranks.now i set.old }
    {
        let pairs = self.pairs();
        if pairs <= 12 {
            put_entries(self.largest_set(ranks, i), 1, pairs, set);
        } else {
            self.strike_out(ranks, i, set);
        }
    }

    // Gives each pair of section j the least rank whose X(l, k) has it, goals included.
    fn rank_pairs(&self, ranks: &mut [u16])
        requires { pairs self.now.lifted.pair.now ≤ length ranks.old }
        ensures { ranks.new ≡ ranked self.now.lifted.pair.now self.now.lifted.table.now self.now.j (sets_c self.now.lifted.pair.now * pairs self.now.lifted.pair.now) ranks.old }
    {
        let pairs = self.pairs();
        for i in 0..self.lifted.pair.concrete.sets * pairs {
            let mut set = [0u16; PAIR_ROOM];
            self.put_largest(ranks, i, &mut set);
            mark(pairs, &set, (i + 1) as u16, ranks);
        }
    }

    // The rank of pair number e in section j, 0 for a goal.
    fn rank_of(&self, ranks: &[u16], e: usize) -> u16
        ensures { result ≡ rank_of self.now.lifted.pair.now self.now.lifted.table.now self.now.j ranks.now e }
    {
        let abstraction = &self.lifted.pair.abstraction;
        // computed from the counts, as in `Tabled::entry_at`
        let c = e / abstraction.states;
        let a = e % abstraction.states;
        if is_matched(self.lifted.pair, c, a) && self.lifted.goal_holds(self.j, c, a) {
            0
        } else {
            value_at(ranks, e)
        }
    }

    // Whether section j of a table has the ranks; or, where they need not be exact, covers the pairs that have one.
    fn has_ranks(&self, compared: Compared, table: &[u16]) -> bool
        ensures { result ≡ section_ranked self.now.lifted.pair.now (is_exact compared) self.now.lifted.table.now table.now self.now.j }
    {
        let pairs = self.pairs();
        let mut ranks = [machine::BLANK; PAIR_ROOM];
        self.rank_pairs(&mut ranks);
        (0..pairs).all(|e| {
            let rank = self.rank_of(&ranks, e);
            shown(compared, rank) == shown(compared, value_at(table, self.j * pairs + e))
        })
    }
}

// Whether a table has the ranks of two well-formed machines, or covers the pairs that have one, where the lifted table tells what is covered. With the
// table of any other family in its place these are the ranks over that family.
pub fn is_ranked(p: Pair, compared: Compared, lifted: &[u16], table: &[u16]) -> bool
    ensures { result ≡ table_ranked p (is_exact compared) lifted.now table.now }
{
    if validity(p).is_err() {
        return false;
    }
    let lifted = Tabled {
        pair: &p,
        table: lifted,
    };
    (0..p.abstraction.sets).all(
        |j|
            requires { j < sets_a lifted.pair.now }
        {
            let section = Section { lifted, j };
            section.has_ranks(compared, table)
        },
    )
}
