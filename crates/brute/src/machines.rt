// The plain reading of machines: every question is asked of a state by its number.
ghost use Rattle.std.specs.Prelude.{◌≡◌, eqb};
ghost use Rattle.mask.specs.Logic.{not};
ghost use Rattle.mask.specs.Bounded.{below};
ghost use Rattle.machine.specs.Machines.{observation, successors, moves, starts, in_fair_set, matched};
ghost use Rattle.brute.specs.Asked.{asks_states};
ghost use Rattle.machine.specs.WellFormed.{counts_ok, beyond, state_beyond, set_beyond, is_beyond_counts, first_empty, lowest_empty_set, has_empty_set, content_validity, sets_validity, content_tests, pair_tests, pair_validity, nonempty_validity};

use crate::lists::element_or;
use machine::{Machine, Pair, Refusal};

// The successor mask of state s; a machine has 64, and past these an empty one.
pub fn successors_of(m: &Machine, s: usize) -> u64
    ensures { result ≡ successors m.now s }
{
    element_or(&m.successors, s, 0)
}

// Whether t is a successor of s. This and `in_set` are one bit of a mask each, under the names that document 01 has for them.
pub fn has_move(m: &Machine, s: usize, t: usize) -> bool
    ensures { result ≡ moves m.now s t }
{
    mask::has(successors_of(m, s), t)
}

// Whether s is a start state.
pub fn has_start(m: &Machine, s: usize) -> bool
    ensures { result ≡ starts m.now s }
{
    mask::has(m.start, s)
}

// Whether s is in set k.
pub fn in_set(m: &Machine, k: usize, s: usize) -> bool
    ensures { result ≡ in_fair_set m.now k s }
{
    mask::has(element_or(&m.fairness, k, 0), s)
}

// The observation of state s; past the 64 of a machine it is 0.
pub fn observed(m: &Machine, s: usize) -> u8
    ensures { result ≡ observation m.now s }
{
    element_or(&m.observations, s, 0)
}

// Whether (c, a) is matched.
pub fn is_matched(p: &Pair, c: usize, a: usize) -> bool
    ensures { result ≡ matched p.now c a }
{
    machine::same_observation(
        p.hidden,
        observed(&p.concrete, c),
        observed(&p.abstraction, a),
    )
}

// ---- Well-formedness

// Whether a machine has 1 to 64 states and 1 to `limit` sets.
fn has_counts(limit: usize, m: &Machine) -> bool
    ensures { result ≡ counts_ok limit m.now.states m.now.sets }
{
    1 <= m.states && m.states <= 64 && 1 <= m.sets && m.sets <= limit
}

// Whether a mask has a state at or past n.
fn has_past(n: usize, m: u64) -> bool
    ensures { result ≡ beyond n m }
{
    // most masks have states below n alone
    m > mask::full(n) && (0..64).any(|s| mask::has(m, s) && n <= s)
}

// Whether mask i of `count` has something beyond the counts: a state, or anything at all where there is no such mask.
fn mask_past(states: usize, count: usize, masks: &[u64], i: usize) -> bool
    ensures { result ≡ set_beyond states count masks.now i }
{
    let mask = element_or(masks, i, 0);
    if i < count {
        has_past(states, mask)
    } else {
        mask != 0
    }
}

// Whether state s has something beyond the counts: a successor, or anything at all where the machine has no such state.
fn state_past(m: &Machine, s: usize) -> bool
    ensures { result ≡ state_beyond m.now.states m.now.observations m.now.successors s }
{
    (m.states <= s && observed(m, s) != 0) || mask_past(m.states, m.states, &m.successors, s)
}

// Whether a bit or an entry of a machine lies beyond its counts.
fn is_past(m: &Machine) -> bool
    ensures { result ≡ is_beyond_counts m.now }
{
    has_past(m.states, m.start)
        || (0..64).any(|s| state_past(m, s))
        || (0..8).any(|k| mask_past(m.states, m.sets, &m.fairness, k))
}

// Whether a mask has a state.
fn has_state(members: u64) -> bool
    ensures { result ≡ not (eqb members 0) }
{
    (0..64).any(|s| mask::has(members, s))
}

// The lowest of the first `count` masks without a state.
fn first_empty(room: usize, count: usize, masks: &[u64]) -> Option<usize>
    ensures { result ≡ below room (first_empty room count masks.now) }
{
    (0..room).find(|i| *i < count && !has_state(element_or(masks, *i, 0)))
}

// 9, 10 and 11 of machine number i of a pair. The number goes into the spot as it is, here, in `sets_nonempty` and in `content_and_sets`, and a machine
// alone has number 0 whichever kind it is: an enum of the two kinds would say too much.
fn content(i: usize, m: &Machine) -> Result<(), Refusal>
    ensures { result ≡ content_validity i m.now }
{
    if is_past(m) {
        return Err(Refusal::BeyondCounts { machine: i });
    }
    if m.start == 0 {
        return Err(Refusal::NoStart { machine: i });
    }
    match first_empty(64, m.states, &m.successors) {
        Some(state) => Err(Refusal::NoSuccessor { machine: i, state }),
        None => Ok(()),
    }
}

// The lowest set without a state, counted from 0.
fn empty_set(m: &Machine) -> Option<usize>
    ensures { result ≡ below 8 (lowest_empty_set m.now.sets m.now.fairness) }
{
    first_empty(8, m.sets, &m.fairness)
}

// Whether a machine has a set without a state.
pub fn has_empty_set(m: &Machine) -> bool
    ensures { result ≡ has_empty_set m.now }
{
    empty_set(m).is_some()
}

// 21 of machine number i of a pair.
fn sets_nonempty(i: usize, m: &Machine) -> Result<(), Refusal>
    ensures { result ≡ sets_validity i m.now }
{
    match empty_set(m) {
        Some(k) => Err(Refusal::EmptySet {
            machine: i,
            set: k + 1,
        }),
        None => Ok(()),
    }
}

// What is asked of the fairness sets: nothing, or that each has a state. One function makes both rows of tests, as the definition `pair_tests` takes
// this as data; a closure that tests or does not would have to promise that once more. The product's enum of this kind is `validity`'s, with which brute
// force shares no code.
#[derive(Clone, Copy, Debug, PartialEq, Eq)]
enum Sets {
    Any,
    Nonempty,
}

// 9, 10 and 11 of machine number i of a pair, and then 21 where its sets shall be nonempty.
fn content_and_sets(asked: Sets, i: usize, m: &Machine) -> Result<(), Refusal>
    ensures { result ≡ content_tests (asks_states asked) i m.now }
{
    content(i, m)?;
    match asked {
        Sets::Any => Ok(()),
        Sets::Nonempty => sets_nonempty(i, m),
    }
}

// 5, then these of the concrete machine and of the abstract one. Callers have two names for it, `validity` and `nonempty_validity`, that say which
// numbers each refuses.
fn tests(asked: Sets, p: &Pair) -> Result<(), Refusal>
    ensures { result ≡ pair_tests (asks_states asked) p.now }
{
    let c = &p.concrete;
    let a = &p.abstraction;
    if !has_counts(8, c) || !has_counts(7, a) {
        return Err(Refusal::BadCounts);
    }
    content_and_sets(asked, 0, c)?;
    content_and_sets(asked, 1, a)
}

// 5, 9, 10 and 11 of a pair.
pub fn validity(p: Pair) -> Result<(), Refusal>
    ensures { result ≡ pair_validity p }
{
    tests(Sets::Any, &p)
}

// 5, 9, 10, 11 and 21 of a pair.
pub fn nonempty_validity(p: Pair) -> Result<(), Refusal>
    ensures { result ≡ nonempty_validity p }
{
    tests(Sets::Nonempty, &p)
}
