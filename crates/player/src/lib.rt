// The player of lassos: document 01, "Player", with the single step of document 02, No. 10.
// Cost: the line check, and then at most 28,672 steps, each one search among the successors of an abstract state.
// C lends machines, table, stem and loop apart, so that `play` takes them so. A `Lasso` may also be one that 13 refuses: its length is asked for
// where it is needed, and so is that a section or a state, which comes by number, is in range.
#![tactic(auto)]

ghost use Rattle.std.specs.Prelude.{true, cond, ◌≡◌, ℕ, ◌+◌, ◌<◌, ◌≤◌, eqb, length};
ghost use Rattle.mask.specs.Bits.{has_bit};
ghost use Rattle.mask.specs.Bounded.{first, below};
ghost use Rattle.machine.specs.Machines.{moves, next, n_c, n_a, sets_a};
ghost use Rattle.machine.specs.Lassos.{lasso_length, moment, given};
ghost use Rattle.machine.specs.Step.{present_of, single_step, state_of};
ghost use Rattle.machine.specs.Table.{entry};
ghost use Rattle.machine.specs.Lines.{non_blank};
ghost use Rattle.machine.specs.Player.{has_bad_length, bad_step, missed_set, lasso_validity, start_partner, run_room, run_lengths, player_answer, player_buffer};
ghost use Rattle.soundness.specs.PlayerLaws.{Playable};
ghost use Rattle.player.specs.Given.{lent, none_in};
ghost use Rattle.player.specs.Places.{IsTabled, OnPlay, Stepped, onward, number_of, written};

use machine::{Formed, Machine, Pair, Refusal, Run};

// The least length of the buffer that is lent for the run, in bytes: 448 rounds of at most 64 states.
pub const RUN_ROOM: usize = 28672;

// ---- Lassos

// A lasso, as its stem and its loop are lent. Brute force has such a struct of its own, since it shares nothing with what it tries.
#[derive(Clone, Copy)]
struct Lasso<'a> {
    stem: &'a [u8],
    cycle: &'a [u8],
}

impl<'a> Lasso<'a> {
    // How many states stem and loop have together.
    fn len(&self) -> usize
        requires { lasso_length (lent self.now) ≤ 128 }
        ensures { result ≡ lasso_length (lent self.now) }
    {
        self.stem.len() + self.cycle.len()
    }

    // The state at a position.
    fn state_at(&self, position: usize) -> usize
        requires { position < lasso_length (lent self.now) }
        ensures { result ≡ moment (lent self.now) position }
    {
        if position < self.stem.len() {
            self.stem[position] as usize
        } else {
            self.cycle[position - self.stem.len()] as usize
        }
    }

    // Whether refusal 13 holds.
    fn has_bad_length(&self) -> bool
        ensures { result ≡ has_bad_length (lent self.now) }
    {
        if self.cycle.is_empty() || 64 < self.stem.len() || 64 < self.cycle.len() {
            return true;
        }
        // formed only where it cannot overflow
        64 < self.len()
    }

    // Whether refusal 14 holds at position i; the closing step belongs to the last.
    fn has_bad_step(&self, m: &Machine, i: usize) -> bool
        requires { (0 < length self.now.cycle.now) × ((lasso_length (lent self.now) ≤ 64) × (i < lasso_length (lent self.now))) }
        ensures { result ≡ bad_step m.now (lent self.now) i }
    {
        let s = self.state_at(i);
        if m.states <= s {
            return true;
        }
        let is_entered = if i == 0 {
            mask::has(m.start, s)
        } else {
            moves_to(m, self.state_at(i - 1), s)
        };
        if !is_entered {
            return true;
        }
        let closes = moves_to(m, s, self.state_at(self.stem.len()));
        i + 1 == self.len() && !closes
    }

    // The first position at which refusal 14 holds.
    fn first_bad_step(&self, m: &Machine) -> Option<usize>
        requires { (0 < length self.now.cycle.now) × (lasso_length (lent self.now) ≤ 64) }
        ensures { result ≡ below (lasso_length (lent self.now)) (first (lasso_length (lent self.now)) (bad_step m.now (lent self.now))) }
    {
        (0..self.len()).find(|i| self.has_bad_step(m, *i))
    }

    // Whether no state of the loop is in the mask of a set.
    fn misses(&self, members: u64) -> bool
        ensures { result ≡ none_in members self.now.cycle.now }
    {
        !self.cycle.iter().any(|s| mask::has(members, *s as usize))
    }

    // The first set of the concrete machine without a state of the loop.
    fn first_missed_set(&self, formed: &Formed) -> Option<usize>
        ensures { let m = formed.now.pair.now.concrete in result ≡ below m.sets (first m.sets (missed_set m (lent self.now))) }
    {
        let m = &formed.pair.concrete;
        (0..m.sets).find(|k| self.misses(m.fairness[*k]))
    }

    // Refusals 13 to 15.
    fn validity(&self, formed: &Formed) -> Result<(), Refusal>
        ensures { result ≡ lasso_validity formed.now.pair.now.concrete (lent self.now) }
    {
        let m = &formed.pair.concrete;
        if self.has_bad_length() {
            return Err(Refusal::BadLassoLength);
        }
        if let Some(position) = self.first_bad_step(m) {
            return Err(Refusal::BadLassoStep { position });
        }
        match self.first_missed_set(formed) {
            Some(k) => Err(Refusal::UnfairLasso { set: k + 1 }),
            None => Ok(()),
        }
    }
}

// Whether t is a successor of s.
fn moves_to(m: &Machine, s: usize, t: usize) -> bool
    ensures { result ≡ moves m.now s t }
{
    s < 64 && mask::has(m.successors[s], t)
}

// ---- The rule

// A well-formed pair with its matched masks, and a table with room: where partners are looked for.
#[derive(Clone, Copy)]
struct TabledPair<'a> {
    pair: &'a Pair,
    matched: &'a [u64; 64],
    table: &'a [u16],
    ghost is_tabled: { IsTabled pair.now matched.now table.now },
}

impl<'a> TabledPair<'a> {
    // The entry of (j, c, a). Here and in `best_partner` numbers come one by one, since document 01 has a table as one flat list.
    fn entry(&self, j: usize, c: usize, a: usize) -> u16
        requires { (j < sets_a self.now.pair.now) × ((c < n_c self.now.pair.now) × (a < n_a self.now.pair.now)) }
        ensures { result ≡ entry self.now.pair.now self.now.table.now j c a }
    {
        let nc = self.pair.concrete.states;
        let na = self.pair.abstraction.states;
        self.table[machine::entry_index(nc, na, j, c, a)]
    }

    // Of the states of the mask `moves`, the one of least entry in section j beside the concrete state d; of equal ones the state `present`, then
    // the lowest number.
    fn best_partner(&self, present: Option<usize>, moves: u64, j: usize, d: usize) -> Option<usize>
        requires j_bound { (j < sets_a self.now.pair.now) × (d < n_c self.now.pair.now) }
        requires appended { (i : ℕ) → i < 64 → has_bit moves i ≡ true → i < n_a self.now.pair.now }
        ensures { result ≡ single_step (present_of present) moves (non_blank self.now.pair.now self.now.table.now j d) (entry self.now.pair.now self.now.table.now j d) }
    {
        let table = self.table;
        let na = self.pair.abstraction.states;
        let from = machine::entry_index(self.pair.concrete.states, na, j, d, 0);
        let to = from + na;
        machine::partner_within(
            present,
            moves,
            self.matched[d],
            &table[from..to],
            machine::BLANK - 1,
        )
    }

    // Writes the run, from the abstract start state `first` on, and ends at the first loop start whose a and j were seen at an earlier one. `t` is
    // counted by hand: a `for` would need an answer after its last turn, which is never reached.
    fn write_run(&self, lasso: &Lasso, first: usize, run: &mut [u8]) -> Run
        requires playable { Playable self.now.pair.now self.now.table.now (lent lasso.now) }
        requires first_value { first ≡ state_of (start_partner self.now.pair.now self.now.table.now (moment (lent lasso.now) 0)) }
        requires run_room_in_bounds { run_room ≤ length run.old }
        ensures answer { result ≡ run_lengths self.now.pair.now self.now.table.now (lent lasso.now) }
        ensures buffer { run.new ≡ written self.now.pair.now self.now.table.now (lent lasso.now) run.old }
    {
        let start = lasso.stem.len();
        let period = lasso.cycle.len();
        // the round at which a and j were seen at a loop start: an array, as document 01 has it and memory is fixed
        let mut marks = [None::<u16>; 448];
        let mut place = Place::new(first);
        let mut t = 0;
        loop {
            let next = place.step(self, lasso);
            let after = t + 1;
            if place.position == start {
                let round = place.round;
                let number = number_of(place.a, place.j);
                if let Some(seen) = marks[number] {
                    let earlier = seen as usize;
                    return Run {
                        stem: start + earlier * period,
                        cycle: (round - earlier) * period,
                    };
                }
                marks[number] = Some(round as u16);
            }
            run[t] = place.a as u8;
            t = after;
            place = next;
        }
    }
}

// Where the player is: at a position of the lasso, from 0 through stem and loop, after so many rounds, in the abstract state a and section j.
#[derive(Clone, Copy)]
struct Place {
    position: usize,
    a: usize,
    j: usize,
    round: usize,
}

impl Place {
    // The start, at the abstract state a.
    fn new(a: usize) -> Self
        ensures { result ≡ record { position = 0; a = a; j = 0; round = 0 } }
    {
        Self {
            position: 0,
            a,
            j: 0,
            round: 0,
        }
    }

    // One position on: after the last position comes that of the loop's start, one round later.
    fn onward(self, lasso: &Lasso) -> Self
        requires { (self.position < lasso_length (lent lasso.now)) × ((lasso_length (lent lasso.now) ≤ 64) × (self.round ≤ 448)) }
        ensures { result ≡ onward (length lasso.now.stem.now) (lasso_length (lent lasso.now)) self }
    {
        if self.position + 1 == lasso.len() {
            Self {
                position: lasso.stem.len(),
                round: self.round + 1,
                ..self
            }
        } else {
            Self {
                position: self.position + 1,
                ..self
            }
        }
    }

    // The section in which the next partner is looked for, of n, where e is the entry of the pair: after a goal, the next.
    fn section_after(self, n: usize, e: u16) -> usize
        ensures { result ≡ cond (eqb e 0) (next n self.j) self.j }
    {
        let j = self.j;
        let next = machine::next_section(n, j);
        if e == 0 { next } else { j }
    }

    // The place at the next moment, by the rule.
    fn step(self, tabled: &TabledPair, lasso: &Lasso) -> Self
        requires playable { Playable tabled.now.pair.now tabled.now.table.now (lent lasso.now) }
        requires on_play { OnPlay tabled.now.pair.now tabled.now.table.now (lent lasso.now) self }
        requires round_bound { self.round ≤ 448 }
        ensures { Stepped tabled.now.pair.now tabled.now.table.now (lent lasso.now) self result }
    {
        let abstraction = &tabled.pair.abstraction;
        let e = tabled.entry(self.j, lasso.state_at(self.position), self.a);
        let next = self.onward(lasso);
        let j = self.section_after(abstraction.sets, e);
        let d = lasso.state_at(next.position);
        let found = tabled.best_partner(Some(self.a), abstraction.successors[self.a], j, d);
        Self {
            a: found.unwrap_or(0),
            j,
            ..next
        }
    }
}

// The number, below 448, of a state a and a section j: the place of their mark in document 01's one array. It takes a modulo 64 and j modulo 7, so
// that any have an answer; states and sections are less.
fn number_of(a: usize, j: usize) -> usize
    ensures { result ≡ number_of a j }
{
    a % 64 * 7 + j % 7
}

// ---- The player

// Plays a lasso of the concrete machine by the table: the abstract run goes to the lent buffer `run`, as C lends it, and its stem length and loop
// length come back, or where the call was stopped.
pub fn play(
    p: Pair,
    table: &[u16],
    stem: &[u8],
    cycle: &[u8],
    run: &mut [u8],
) -> Result<Run, Refusal>
    ensures answer { result ≡ player_answer p table.now (given stem.now cycle.now) run.old }
    ensures buffer { run.new ≡ player_buffer p table.now (given stem.now cycle.now) run.old }
{
    if run.len() < RUN_ROOM {
        return Err(Refusal::ShortBuffer);
    }
    linecheck::check_table(p, table)?;
    let lasso = Lasso { stem, cycle };
    let formed = Formed { pair: &p };
    lasso.validity(&formed)?;
    let matched = machine::matched_masks(p);
    let tabled = TabledPair {
        pair: &p,
        matched: &matched,
        table,
    };
    let c = lasso.state_at(0);
    let Some(first) = tabled.best_partner(None, p.abstraction.start, 0, c) else {
        return Err(Refusal::NoStartPartner);
    };
    Ok(tabled.write_run(&lasso, first, run))
}
