// Machines, pairs of machines, refusals, the single step, and where a table's sections and entries lie. The definitions of well-formedness stand
// here too; crate `validity` tests it.
#![tactic(auto)]

ghost use Rattle.std.specs.Prelude.{true, ◌≡◌, ◌<◌, ℕ, List, get_or};
ghost use Rattle.std.proofs.lemmas.List.Edits.{sets};
ghost use Rattle.mask.specs.Bits.{has_bit};
ghost use Rattle.machine.specs.Machines.{same_observation, next};
ghost use Rattle.machine.specs.WellFormed.{well_formed};
ghost use Rattle.machine.specs.Refusals.{number_of, spot_of, four_numbers, answer_in, spot_after};
ghost use Rattle.machine.specs.Numbers.{numbers, four_of};
ghost use Rattle.machine.specs.Step.{partner, present_of, single_step, found, alike, in_row};
ghost use Rattle.machine.specs.Observed.{matched_row, matched_masks};
ghost use Rattle.machine.specs.Table.{place_of};

use std::array;

// A finite machine with fairness sets. Document 01: the rig is the concrete machine, the score the abstract one.
// Counts stand beside arrays of the largest size, and what a state has in two arrays, as document 01 files them: memory is fixed, and entries past
// the counts are tested.
#[derive(Clone, Copy, PartialEq, Eq)]
pub struct Machine {
    pub states: usize,
    pub sets: usize,
    pub start: u64,
    pub observations: [u8; 64],
    pub successors: [u64; 64],
    pub fairness: [u64; 8],
}

// The concrete machine (document 01: rig) and its abstraction, the abstract one (document 01: score), and the mask of the observation bits
// that are not compared, any byte (document 02: hidden mask).
#[derive(Clone, Copy)]
pub struct Pair {
    pub concrete: Machine,
    pub abstraction: Machine,
    pub hidden: u8,
}

// A pair of well-formed machines: who holds one need not test it again.
#[derive(Clone, Copy)]
pub struct Formed<'a> {
    pub pair: &'a Pair,
    pub ghost well: { well_formed pair.now ≡ true },
}

// The least length of a lent table, in entries: 7 x 64 x 64.
pub const TABLE_ROOM: usize = 28672;

// The entry of a pair that is not covered. It is a number and no option, since tables lie in memory and in files as document 01 has them.
pub const BLANK: u16 = 65535;

// What C is told of a file without a table, where other numbers are refusals'.
pub const NO_TABLE: u32 = 101;

// Where a call was stopped: the condition of document 01's table, or one that document 02 adds, with what tells its spot. Sections and sets are
// counted from 1, machines, states, blocks and positions from 0.
#[derive(Clone, Copy, Debug, PartialEq, Eq)]
pub enum Refusal {
    ShortBuffer,
    BadLength,
    BadFirstBlock,
    BadHeader,
    BadCounts,
    WrongLength,
    BadBlock { block: usize },
    BadPadding,
    BeyondCounts { machine: usize },
    NoStart { machine: usize },
    NoSuccessor { machine: usize, state: usize },
    FailingEntry { section: usize, c: usize, a: usize },
    BadLassoLength,
    BadLassoStep { position: usize },
    UnfairLasso { set: usize },
    NoStartPartner,
    Misplaced { block: usize, found: usize },
    OutOfRange,
    EmptySet { machine: usize, set: usize },
    UnlikeLast,
    TooManyFiles,
}

// What the check says of a table that passes each line.
#[derive(Clone, Copy, Debug, PartialEq, Eq)]
pub enum Verdict {
    // how many entries are not blank
    Carried { covered: usize },
    // the lowest concrete start state without a partner too
    NotCarried { lacking: usize, covered: usize },
}

// What the check says of such a table, and whether a set of the concrete machine is empty, so that no play of it is fair.
#[derive(Clone, Copy, Debug, PartialEq, Eq)]
pub struct Checked {
    pub verdict: Verdict,
    pub empty_set: bool,
}

// The lengths of stem and loop of a run that the player wrote.
#[derive(Clone, Copy, Debug, PartialEq, Eq)]
pub struct Run {
    pub stem: usize,
    pub cycle: usize,
}

// ---- Refusals

impl Refusal {
    // Its number in document 01's table, or the one that document 02 gives it.
    pub fn number(self) -> u32
        ensures { result ≡ number_of self }
    {
        match self {
            Refusal::ShortBuffer => 1,
            Refusal::BadLength => 2,
            Refusal::BadFirstBlock => 3,
            Refusal::BadHeader => 4,
            Refusal::BadCounts => 5,
            Refusal::WrongLength => 6,
            Refusal::BadBlock { .. } => 7,
            Refusal::BadPadding => 8,
            Refusal::BeyondCounts { .. } => 9,
            Refusal::NoStart { .. } => 10,
            Refusal::NoSuccessor { .. } => 11,
            Refusal::FailingEntry { .. } => 12,
            Refusal::BadLassoLength => 13,
            Refusal::BadLassoStep { .. } => 14,
            Refusal::UnfairLasso { .. } => 15,
            Refusal::NoStartPartner => 16,
            Refusal::Misplaced { .. } => 19,
            Refusal::OutOfRange => 20,
            Refusal::EmptySet { .. } => 21,
            Refusal::UnlikeLast => 25,
            Refusal::TooManyFiles => 26,
        }
    }

    // The three numbers of its spot, 0 where unused.
    pub fn spot(self) -> [usize; 3]
        ensures { result ≡ spot_of self }
    {
        match self {
            Refusal::BadBlock { block } => [block, 0, 0],
            Refusal::BeyondCounts { machine } => [machine, 0, 0],
            Refusal::NoStart { machine } => [machine, 0, 0],
            Refusal::NoSuccessor { machine, state } => [machine, state, 0],
            Refusal::FailingEntry { section, c, a } => [section, c, a],
            Refusal::BadLassoStep { position } => [position, 0, 0],
            Refusal::UnfairLasso { set } => [set, 0, 0],
            Refusal::Misplaced { block, found } => [block, found, 0],
            Refusal::EmptySet { machine, set } => [machine, set, 0],
            Refusal::ShortBuffer
            | Refusal::BadLength
            | Refusal::BadFirstBlock
            | Refusal::BadHeader
            | Refusal::BadCounts
            | Refusal::WrongLength
            | Refusal::BadPadding
            | Refusal::BadLassoLength
            | Refusal::NoStartPartner
            | Refusal::OutOfRange
            | Refusal::UnlikeLast
            | Refusal::TooManyFiles => [0, 0, 0],
        }
    }
}

// A number and the three numbers of a spot, 0 where unused: any four, as C gets what stopped a call and what is no refusal, such as `NO_TABLE`.
#[derive(Clone, Copy)]
pub struct Numbers {
    pub number: u32,
    pub first: usize,
    pub second: usize,
    pub third: usize,
}

// The four with this number and spot.
pub fn refuse(number: u32, first: usize, second: usize, third: usize) -> Numbers
    ensures { result ≡ numbers number first second third }
{
    Numbers {
        number: number,
        first: first,
        second: second,
        third: third,
    }
}

// What C is told by four numbers.
pub trait Numbered: Copy {
    ghost four: { Self → List ℕ };

    // The number and the spot's three.
    fn four(self) -> [u64; 4]
        ensures { result ≡ four self };
}

impl Numbered for Refusal {
    ghost four = { four_numbers };

    fn four(self) -> [u64; 4] {
        let place = self.spot();
        [
            self.number() as u64,
            place[0] as u64,
            place[1] as u64,
            place[2] as u64,
        ]
    }
}

impl Numbered for Numbers {
    ghost four = { four_of };

    fn four(self) -> [u64; 4] {
        [
            self.number as u64,
            self.first as u64,
            self.second as u64,
            self.third as u64,
        ]
    }
}

// Writes the four numbers of a refusal, or any four, as C gets them.
pub fn put_refusal<R: Numbered>(spot: &mut [u64; 4], r: R)
    ensures { spot.new ≡ sets spot.old 0 (R.four r) }
{
    let four = r.four();
    spot[0] = four[0];
    spot[1] = four[1];
    spot[2] = four[2];
    spot[3] = four[3];
}

// The answer, for a call from C, if there is one: the four numbers of a refusal go to `spot`, which is unchanged beside an answer.
pub fn told<T>(said: Result<T, Refusal>, spot: &mut [u64; 4]) -> Option<T>
    ensures value { result ≡ answer_in said }
    ensures numbers { spot.new ≡ spot_after said spot.old }
{
    match said {
        Ok(answer) => Some(answer),
        Err(refusal) => {
            put_refusal(spot, refusal);
            None
        }
    }
}

// ---- Matched pairs

// Whether two observations are the same in the bits that are not hidden.
pub fn same_observation(hidden: u8, x: u8, y: u8) -> bool
    ensures { result ≡ same_observation hidden x y }
{
    hidden | x == hidden | y
}

// The mask of the abstract states that are matched with concrete state s; none for a number that is no state.
fn matched_row(p: &Pair, s: usize) -> u64
    requires { s < 64 }
    ensures { result ≡ matched_row p.now s }
{
    let (c, a) = (&p.concrete, &p.abstraction);
    if s < c.states {
        mask::those(a.states, |t| {
            same_observation(p.hidden, c.observations[s], a.observations[t])
        })
    } else {
        0
    }
}

// For each concrete state the mask of the abstract states that are matched with it.
pub fn matched_masks(p: Pair) -> [u64; 64]
    ensures { result ≡ matched_masks p }
{
    array::from_fn(|s| matched_row(&p, s))
}

// ---- The single step

// The single step, in the abstract state `present`, or before the first state, into a set that is given by the mask of its states beside c': of
// the moves that are in the row the present state if it is among them, else the lowest.
pub fn partner_in(present: Option<usize>, moves: u64, row: u64) -> Option<usize>
    ensures { result ≡ single_step (present_of present) moves (has_bit row) alike }
{
    let m = moves & row;
    if let Some(a) = present {
        if mask::has(m, a) {
            return present;
        }
    }
    if m == 0 { None } else { Some(mask::lowest(m)) }
}

// Of the moves that are matched with c' and whose entry is at most the bound, the one of least entry, the lowest of these.
// A walk over the ones of a mask, as in `has_partner`: `min_by_key` or `any` would go over all 64 numbers, in the innermost loop of player and check.
fn least_within(moves: u64, matched: u64, row: &[u16], bound: u16) -> Option<usize>
    ensures { result ≡ partner moves (in_row matched row.now bound) (λ a. get_or row.now a 0) }
{
    let mut m = moves & matched;
    let mut best = None;
    // an entry below the limit is taken: the first has to be within the bound, a later one lower than the best
    let mut limit = bound as u32 + 1;
    while m != 0 {
        let a = mask::lowest(m);
        if a < row.len() {
            let e = row[a] as u32;
            if e < limit {
                best = Some(a);
                limit = e;
            }
        }
        m = mask::rest(m);
    }
    best
}

// The single step, in the abstract state `present`, or before the first state, into a set that is given by its entries beside c' and a bound: of
// the moves that are matched with c' and whose entry is at most the bound, those of least entry; of these the present state if it is among them,
// else the lowest. Moves, row and bound come one by one: they are from a machine, its pair's masks and a table. The present state is compared once
// behind the walk: with a key of entry and state the walk would compare it for each state.
pub fn partner_within(
    present: Option<usize>,
    moves: u64,
    matched: u64,
    row: &[u16],
    bound: u16,
) -> Option<usize>
    ensures { result ≡ single_step (present_of present) moves (in_row matched row.now bound) (λ a. get_or row.now a 0) }
{
    let best = least_within(moves, matched, row, bound)?;
    if let Some(a) = present {
        if mask::has(moves & matched, a) {
            if a < row.len() {
                if row[a] <= row[best] {
                    return present;
                }
            }
        }
    }
    Some(best)
}

// Whether `partner_within` names a partner, whatever the present state; it stops at the first.
pub fn has_partner(moves: u64, matched: u64, row: &[u16], bound: u16) -> bool
    ensures { (present : ℕ) → result ≡ found (single_step present moves (in_row matched row.now bound) (λ a. get_or row.now a 0)) }
{
    let mut m = moves & matched;
    while m != 0 {
        let a = mask::lowest(m);
        if a < row.len() {
            if row[a] <= bound {
                return true;
            }
        }
        m = mask::rest(m);
    }
    false
}

// ---- Sections and tables

// The section after j, of n: after the last comes the first.
pub fn next_section(n: usize, j: usize) -> usize
    ensures { result ≡ next n j }
{
    if n <= j {
        return 0;
    }
    if j + 1 < n { j + 1 } else { 0 }
}

// The place in a table of entry (j, c, a): document 01 has one flat list, so that counts and numbers come one by one. It takes each number
// modulo 256, so that any have an answer; counts, sections and states are less.
pub fn entry_index(nc: usize, na: usize, j: usize, c: usize, a: usize) -> usize
    ensures { result ≡ place_of nc na j c a }
{
    (j % 256 * (nc % 256) + c % 256) * (na % 256) + a % 256
}
