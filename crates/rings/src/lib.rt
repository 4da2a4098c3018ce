// Pairs that take a solver by iteration long, from a few numbers. A concrete machine has two rings and two ends; an abstract one has two rings,
// then a state that leads to the universal one, the universal state, which has an answer to every move, two ends, and in the second family, where plays
// go back from an end, three more.
// The pairs of a concrete and an abstract ring of coprime lengths make one chain, each leading to the next. Of the first rings' chain a turn
// loses one pair. Of the concrete first and the abstract second ring's a round of X(l, k) loses one; in the second family it is covered, one
// level above the whole third chain. Of the second rings' a level gains one pair, as only one of them leads to the universal state.
#![tactic(auto)]

ghost use Rattle.std.specs.Prelude.{cond, ◌≡◌, ◌<◌, ◌≤◌, eqb, get_or};
ghost use Rattle.std.specs.List.{fold};
ghost use Rattle.mask.specs.Bits.{with_bit};
ghost use Rattle.mask.specs.Tables.{mask_of};
ghost use Rattle.rings.specs.Rings.{ring_next, start_states, side_state, concrete_state, further_states, last_state, abstract_state, ring_states, ring_state, ring_machine, ring_pair};

use machine::{Machine, Pair};
use std::array;

// The lengths of a machine's two rings, and how many sets it has. A machine of over 64 states is made, and is not well formed.
#[derive(Clone, Copy)]
pub struct Rings {
    pub first: u32,
    pub second: u32,
    pub sets: usize,
}

// The two families of pairs.
#[derive(Clone, Copy, Debug, PartialEq, Eq)]
pub enum Family {
    // plays stay at an end; the first state of the abstract machine leads into its second ring too, to state number `entry` there
    Staying { entry: u32 },
    // plays go back from an end of observation 1 into the second ring
    LeadingBack,
}

// Which machine of a pair: an enum and no closure, as the definitions take the kind as data. (A state's number is below 64 in what follows, as
// `array::from_fn` hands it in; a number has no type for that.)
#[derive(Clone, Copy, Debug, PartialEq, Eq)]
enum Kind {
    Concrete,
    Abstract,
}

// What a state is like; `fair` states are in every set.
#[derive(Clone, Copy, Default)]
struct State {
    observation: u8,
    successors: u64,
    fair: bool,
}

// The mask of some states, without those of 64 or more.
fn mask_of(states: &[usize]) -> u64
    ensures { result ≡ fold with_bit 0 states.now }
{
    states.iter().fold(0, |m, s| mask::with(m, *s))
}

// The state after s in a ring that starts at `from` and ends before `end`.
#[tactic(auto, unfolding(crate::specs::Rings::ring_next))]
fn ring_next(from: usize, end: usize, s: usize) -> usize
    requires { s < 64 }
    ensures { result ≡ ring_next from end s }
{
    if s + 1 == end { from } else { s + 1 }
}

impl Family {
    // The state beside its ring to which the first state of an abstract machine leads; `after` is the first state after the rings.
    #[tactic(auto, unfolding(crate::specs::Rings::side_state))]
    fn side_state(self, second: usize, after: usize) -> usize
        requires { (second ≤ 4294967296) × (after ≤ 8589934592) }
        ensures { result ≡ side_state self second after }
    {
        match self {
            Family::Staying { entry } => second + entry as usize,
            Family::LeadingBack => after + 5,
        }
    }

    // State number i after the rings of an abstract machine, of which `after` is the first: the one that leads to the universal state, the
    // universal state, ends of observation 1 and 2; in the second family one that leads back into the second ring, one that leads to the last,
    // and the last, which never shows 1 again.
    #[tactic(auto, unfolding(crate::specs::Rings::further_states))]
    fn further_state(self, second: usize, after: usize, i: usize) -> State
        requires { (second ≤ 4294967296) × (after ≤ 8589934592) }
        ensures { result ≡ get_or (further_states self second after) i (last_state after) }
    {
        match i {
            0 => State {
                successors: mask_of(&[after + 1]),
                ..State::default()
            },
            1 => State {
                successors: mask_of(&[after + 1, after + 2, after + 3]),
                fair: true,
                ..State::default()
            },
            2 => State {
                observation: 1,
                successors: match self {
                    Family::Staying { .. } => mask_of(&[after + 2]),
                    Family::LeadingBack => mask_of(&[after + 1]),
                },
                fair: true,
            },
            3 => State {
                observation: 2,
                successors: mask_of(&[after + 3]),
                fair: true,
            },
            4 => State {
                observation: 1,
                successors: mask_of(&[second + 1]),
                fair: false,
            },
            5 => State {
                observation: 1,
                successors: mask_of(&[after + 6]),
                fair: false,
            },
            _ => State {
                successors: mask_of(&[after + 6, after + 3]),
                ..State::default()
            },
        }
    }
}

// A machine to be made: which of a pair, of which family, and its rings.
#[derive(Clone, Copy)]
struct Plan {
    kind: Kind,
    family: Family,
    rings: Rings,
}

impl Plan {
    // State s of a concrete machine; `end` is the one of observation 1.
    #[tactic(auto, unfolding(crate::specs::Rings::concrete_state))]
    fn concrete_state(self, s: usize) -> State
        requires { s < 64 }
        ensures { result ≡ concrete_state self.family self.rings s }
    {
        let second = self.rings.first as usize;
        let end = second + self.rings.second as usize;
        if s < second {
            let next = ring_next(0, second, s);
            let successors = if s == 0 {
                mask_of(&[next, end + 1, end])
            } else {
                mask_of(&[next, end + 1])
            };
            return State {
                successors,
                ..State::default()
            };
        }
        if s < end {
            let next = ring_next(second, end, s);
            let successors = if s == second + 1 {
                mask_of(&[next])
            } else {
                mask_of(&[next, end + 1])
            };
            return State {
                successors,
                fair: true,
                ..State::default()
            };
        }
        if s != end {
            return State {
                observation: 2,
                successors: mask_of(&[end + 1]),
                fair: false,
            };
        }
        match self.family {
            Family::Staying { .. } => State {
                observation: 1,
                successors: mask_of(&[end]),
                fair: false,
            },
            Family::LeadingBack => State {
                observation: 1,
                successors: mask_of(&[second + 1]),
                fair: true,
            },
        }
    }

    // State s of an abstract machine.
    #[tactic(auto, unfolding(crate::specs::Rings::abstract_state))]
    fn abstract_state(self, s: usize) -> State
        requires { s < 64 }
        ensures { result ≡ abstract_state self.family self.rings s }
    {
        let second = self.rings.first as usize;
        let after = second + self.rings.second as usize;
        if s < second {
            let next = ring_next(0, second, s);
            let side = if s == 0 {
                self.family.side_state(second, after)
            } else {
                after + 2
            };
            return State {
                successors: mask_of(&[next, after + 3, side]),
                fair: true,
                ..State::default()
            };
        }
        if s < after {
            let next = ring_next(second, after, s);
            let successors = if s != second {
                mask_of(&[next, after + 3, after + 2])
            } else {
                match self.family {
                    Family::Staying { .. } => mask_of(&[next, after + 3, after]),
                    Family::LeadingBack => mask_of(&[next, after + 3, after, after + 4]),
                }
            };
            return State {
                successors,
                ..State::default()
            };
        }
        self.family.further_state(second, after, s - after)
    }

    // How many states a machine has.
    #[tactic(auto, unfolding(crate::specs::Rings::ring_states, crate::specs::Rings::states_after))]
    fn states(self) -> usize
        ensures { result ≡ ring_states self.kind self.family self.rings }
    {
        let end = self.rings.first as usize + self.rings.second as usize;
        match self.kind {
            Kind::Concrete => end + 2,
            Kind::Abstract => match self.family {
                Family::Staying { .. } => end + 4,
                Family::LeadingBack => end + 7,
            },
        }
    }

    // State s of a machine; past its states everything is zero.
    #[tactic(auto, unfolding(crate::specs::Rings::ring_state, crate::specs::Rings::own_state))]
    fn state(self, s: usize) -> State
        requires { s < 64 }
        ensures { result ≡ ring_state self.kind self.family self.rings s }
    {
        if self.states() <= s {
            return State::default();
        }
        match self.kind {
            Kind::Concrete => self.concrete_state(s),
            Kind::Abstract => self.abstract_state(s),
        }
    }

    // The start states: those of both rings, of an abstract machine those of the second, so that a play has to follow the ranks along a chain.
    #[tactic(auto, unfolding(crate::specs::Rings::start_states))]
    fn start_states(self) -> u64
        ensures { result ≡ start_states self.kind self.rings }
    {
        let second = self.rings.first as usize;
        let whole = mask::full(second + self.rings.second as usize);
        match self.kind {
            Kind::Concrete => whole,
            Kind::Abstract => whole ^ mask::full(second),
        }
    }

    // The mask of the fair states.
    fn fair_states(self) -> u64
        ensures { result ≡ mask_of 64 (λ s. (ring_state self.kind self.family self.rings s).fair) }
    {
        mask::those(64, |s| self.state(s).fair)
    }

    // A machine of two rings.
    fn machine(self) -> Machine
        ensures { result ≡ ring_machine self.kind self.family self.rings }
    {
        let fair = self.fair_states();
        Machine {
            states: self.states(),
            sets: self.rings.sets,
            start: self.start_states(),
            observations: array::from_fn(|s| self.state(s).observation),
            successors: array::from_fn(|s| self.state(s).successors),
            fairness: array::from_fn(|k| if k < self.rings.sets { fair } else { 0 }),
        }
    }
}

// A pair of such machines, with no bit hidden.
#[tactic(auto, unfolding(crate::specs::Rings::ring_pair))]
pub fn ring_pair(family: Family, concrete: Rings, abstraction: Rings) -> Pair
    ensures { result ≡ ring_pair family concrete abstraction }
{
    let concrete = Plan {
        kind: Kind::Concrete,
        family,
        rings: concrete,
    };
    let abstraction = Plan {
        kind: Kind::Abstract,
        family,
        rings: abstraction,
    };
    Pair {
        concrete: concrete.machine(),
        abstraction: abstraction.machine(),
        hidden: 0,
    }
}
