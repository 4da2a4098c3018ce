// Tests of machines: whether one machine, or a pair, is well formed, and if not where the first refusal of document 01 stops it; and for the calls
// that take no empty set, refusal 21 of document 02 behind these.
#![tactic(auto)]

ghost use Rattle.std.specs.Prelude.{◌≡◌, cond, ltb, eqb, length};
ghost use Rattle.mask.specs.Logic.{not, or};
ghost use Rattle.mask.specs.Bounded.{some, below};
ghost use Rattle.validity.specs.Asked.{asks_states};
ghost use Rattle.machine.specs.WellFormed.{counts_ok, beyond, state_beyond, set_beyond, is_beyond_counts, first_empty, lowest_empty_set, has_empty_set, content_validity, sets_validity, content_tests, machine_validity, pair_tests};

use machine::{Machine, Pair, Refusal};

// What is asked of the fairness sets: nothing, or that each has a state.
#[derive(Clone, Copy, Debug, PartialEq, Eq)]
pub enum Sets {
    Any,
    Nonempty,
}

// Whether a machine has 1 to 64 states and 1 to `limit` sets; of counts by themselves, since the reader tests them before there is a machine.
pub fn counts_ok(limit: usize, states: usize, sets: usize) -> bool
    ensures { result ≡ counts_ok limit states sets }
{
    if states < 1 {
        return false;
    }
    if 64 < states {
        return false;
    }
    if sets < 1 {
        return false;
    }
    sets <= limit
}

// Whether a mask has a state at or past n.
fn has_beyond(n: usize, m: u64) -> bool
    ensures { result ≡ beyond n m }
{
    if n < 64 { m >> n != 0 } else { false }
}

// Whether mask number i has a state at or past the count of states, or, from number `count` on, any state.
fn mask_beyond(states: usize, count: usize, mask: u64, i: usize) -> bool
    ensures { result ≡ cond (ltb i count) (beyond states mask) (not (eqb mask 0)) }
{
    if i < count {
        has_beyond(states, mask)
    } else {
        mask != 0
    }
}

// Whether some of these masks does, of which the first `count` are used. Here and in `first_empty` the count stands beside the masks, and they are not cut
// there: it may be any number.
fn masks_beyond(states: usize, count: usize, masks: &[u64]) -> bool
    ensures { result ≡ some (length masks.now) (set_beyond states count masks.now) }
{
    (0..masks.len()).any(|i| mask_beyond(states, count, masks[i], i))
}

// Whether the entries of state s, or its successors, lie beyond the count of states.
fn state_beyond(states: usize, observation: u8, successors: u64, s: usize) -> bool
    ensures { result ≡ cond (ltb s states) (beyond states successors) (or (not (eqb observation 0)) (not (eqb successors 0))) }
{
    if s < states {
        return has_beyond(states, successors);
    }
    if observation != 0 {
        return true;
    }
    successors != 0
}

// Whether some state's entries lie beyond the count of states, in one walk over the states.
fn states_beyond(m: &Machine) -> bool
    ensures { result ≡ some 64 (state_beyond m.now.states m.now.observations m.now.successors) }
{
    (0..64).any(|s| state_beyond(m.states, m.observations[s], m.successors[s], s))
}

// The lowest of the first `count` masks that has no state.
fn first_empty(count: usize, masks: &[u64]) -> Option<usize>
    ensures { result ≡ below (length masks.now) (first_empty (length masks.now) count masks.now) }
{
    (0..masks.len()).find(|i| *i < count && masks[*i] == 0)
}

// Whether a bit or an entry of a machine lies beyond its counts.
fn beyond_counts(m: Machine) -> bool
    ensures { result ≡ is_beyond_counts m }
{
    if has_beyond(m.states, m.start) {
        return true;
    }
    if states_beyond(&m) {
        return true;
    }
    masks_beyond(m.states, m.sets, &m.fairness)
}

// Refusals 9, 10 and 11 of one machine, which is number `index` of a pair. The number goes into the spot as it is, here, in
// `sets_validity` and in `content_tests`, and a machine by itself is number 0 of either kind, so that a type with two kinds would say more than is so.
fn content_validity(index: usize, m: Machine) -> Result<(), Refusal>
    ensures { result ≡ content_validity index m }
{
    if beyond_counts(m) {
        return Err(Refusal::BeyondCounts { machine: index });
    }
    if m.start == 0 {
        return Err(Refusal::NoStart { machine: index });
    }
    let successors = m.successors;
    match first_empty(m.states, &successors) {
        Some(state) => Err(Refusal::NoSuccessor {
            machine: index,
            state,
        }),
        None => Ok(()),
    }
}

// The lowest set without a state, counted from 0.
fn empty_set(m: Machine) -> Option<usize>
    ensures { result ≡ below 8 (lowest_empty_set m.sets m.fairness) }
{
    let fairness = m.fairness;
    first_empty(m.sets, &fairness)
}

// Whether a machine has a set without a state.
pub fn has_empty_set(m: Machine) -> bool
    ensures { result ≡ has_empty_set m }
{
    empty_set(m).is_some()
}

// Refusal 21 of machine number `index`.
fn sets_validity(index: usize, m: Machine) -> Result<(), Refusal>
    ensures { result ≡ sets_validity index m }
{
    match empty_set(m) {
        Some(k) => Err(Refusal::EmptySet {
            machine: index,
            set: k + 1,
        }),
        None => Ok(()),
    }
}

// Refusals 9 to 11 of machine number `index`, and 21 behind them where its sets shall be nonempty: one row of tests for both, here
// and in `pair_validity`, which a function handed in for the last of them would not make plainer.
fn content_tests(sets: Sets, index: usize, m: Machine) -> Result<(), Refusal>
    ensures { result ≡ content_tests (asks_states sets) index m }
{
    content_validity(index, m)?;
    match sets {
        Sets::Any => Ok(()),
        Sets::Nonempty => sets_validity(index, m),
    }
}

// Whether one machine, which has at most `limit` sets, is well formed; it is machine 0.
pub fn machine_validity(limit: usize, m: Machine) -> Result<(), Refusal>
    ensures { result ≡ machine_validity limit m }
{
    if !counts_ok(limit, m.states, m.sets) {
        return Err(Refusal::BadCounts);
    }
    content_validity(0, m)
}

// Whether a pair is well formed, and every set nonempty if that is asked: the counts of both, then the whole concrete machine, then the whole
// abstract one.
pub fn pair_validity(p: Pair, sets: Sets) -> Result<(), Refusal>
    ensures { result ≡ pair_tests (asks_states sets) p }
{
    let c = p.concrete;
    let a = p.abstraction;
    if !counts_ok(8, c.states, c.sets) {
        return Err(Refusal::BadCounts);
    }
    if !counts_ok(7, a.states, a.sets) {
        return Err(Refusal::BadCounts);
    }
    content_tests(sets, 0, c)?;
    content_tests(sets, 1, a)
}
