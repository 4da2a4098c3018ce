// Compares solver, solver by turns, check and player with brute force on series of small pairs, and writes a line of counts for each.
#![tactic(auto)]

ghost use Rattle.std.specs.Prelude.{◌≡◌, ◌≤◌, ◌-◌, ◌^◌};
ghost use Rattle.comparison.specs.declared.tables.Tables.TheVariants.{Every, Altered};

use brute::Shape;
use comparison::{Numbers, Series, Tables, Tally, Trial};
use rings::{Family, Rings};
use std::io;

// Writes the rest of a series' line.
fn counts(rt: &impl Print, t: Tally) -> io::Result<()> {
    print!(rt;
        ": pairs {}, well formed {}, solved {}, carried {}; ",
        t.pairs, t.formed, t.solved, t.carried
    )?;
    print!(rt;
        "tables {}, passing {}, carried {}, ",
        t.tables, t.passing, t.carrying
    )?;
    print!(rt;
        "beside an empty set {}; lassos {}, runs {}; ",
        t.empty, t.lassos, t.runs
    )?;
    print!(rt;
        "turns {}, finished {}; look-ups {}, ",
        t.turns, t.finished, t.lookups
    )?;
    println!(rt; "still in {}; differing {}", t.held, t.differing)
}

// Compares a series and writes its line.
fn line(rt: &impl Print, s: Series) -> io::Result<()> {
    let c = s.concrete;
    let a = s.abstraction;
    let t = comparison::compare(s);
    // of series with observations over 1 it tells the mask, 0 too
    if c.twos != 0 {
        print!(rt; "hidden {}, ", s.hidden)?;
    }
    print!(rt;
        "states {} and {}, sets {} and {}",
        c.states, a.states, c.sets, a.sets
    )?;
    counts(rt, t)
}

// Some machines: the numbers 0, step, 2 x step, .. of a shape, so many of them.
#[derive(Clone, Copy)]
struct Machines {
    shape: Shape,
    numbers: Numbers,
}

// Machines of `states` states, from 1 to 3, and `sets` sets. Their greatest digit is 2^states - 1, so that a mask can be any set of states, and
// the states in `twos` have 2 added to their observations, which else are 0 and 1.
// Five numbers, and no structs of them: so the machines of a series are one line each below.
fn numbered(states: usize, sets: usize, twos: u64, count: u32, step: u32) -> Machines
    requires { states ≤ 3 }
    ensures { result ≡ record { shape = record { states = states; sets = sets; top = 2 ^ states - 1; twos = twos }; numbers = record { count = count; step = step } } }
{
    Machines {
        shape: Shape {
            states,
            sets,
            top: (1 << states) - 1,
            twos,
        },
        numbers: Numbers { count, step },
    }
}

// All tables of a tiny pair, lassos with a stem of at most two states, and all families: each row is any set of abstract states and of one number past
// them, a digit from 0 to `row`. After these come a few with a bit in every row past the sections and concrete states. (This and the next each name the
// fields in which their series differ; one function for both would take all five.)
fn every_table(tables: u64, families: u64, row: u32) -> Trial
    ensures { result ≡ record { which = Every; tables = tables; stem = 2; families = families; row = row } }
{
    Trial {
        which: Tables::Every,
        tables,
        stem: 2,
        families,
        row,
    }
}

// The solver's table, or the lifted one of a pair that the solver refuses, and all that differ from it in one entry, and lassos with a stem of at
// most `stem` states.
fn altered_tables(tables: u64, stem: usize) -> Trial
    ensures { result ≡ record { which = Altered; tables = tables; stem = stem; families = 0; row = 0 } }
{
    Trial {
        which: Tables::Altered,
        tables,
        stem,
        families: 0,
        row: 0,
    }
}

// The pairs of some concrete and some abstract machines under a hidden mask.
fn pairs(hidden: u8, c: Machines, a: Machines, trial: Trial) -> Series {
    Series {
        concrete: c.shape,
        concretes: c.numbers,
        abstraction: a.shape,
        abstractions: a.numbers,
        hidden,
        trial,
    }
}

// Tiny pairs, with all the tables and families that they have.
fn tiny() -> [Series; 8] {
    let one = numbered(1, 1, 0, 16, 1);
    let two = numbered(2, 1, 0, 1024, 1);
    let some = numbered(2, 2, 0, 512, 7);
    [
        pairs(0, one, one, every_table(4, 8, 3)),
        pairs(0, one, two, every_table(25, 16, 7)),
        pairs(0, two, one, every_table(25, 20, 3)),
        pairs(
            0,
            numbered(1, 2, 0, 32, 1),
            numbered(1, 3, 0, 64, 1),
            every_table(125, 68, 3),
        ),
        pairs(0, one, some, every_table(625, 72, 7)),
        pairs(0, some, one, every_table(49, 20, 3)),
        pairs(
            0,
            numbered(2, 1, 0, 32, 29),
            numbered(2, 1, 0, 32, 27),
            every_table(2401, 72, 7),
        ),
        pairs(
            0,
            numbered(2, 2, 0, 16, 235),
            numbered(2, 1, 0, 16, 59),
            every_table(14641, 72, 7),
        ),
    ]
}

// Other pairs, with the solver's table, or the lifted one, and all that differ from it in one entry.
fn small() -> [Series; 6] {
    let two = numbered(2, 2, 0, 32, 119);
    let three = numbered(3, 2, 0, 32, 60811);
    [
        pairs(
            0,
            numbered(2, 2, 0, 64, 59),
            numbered(2, 2, 0, 64, 61),
            altered_tables(88, 1),
        ),
        pairs(
            0,
            numbered(2, 2, 0, 128, 31),
            numbered(2, 2, 0, 128, 29),
            altered_tables(88, 1),
        ),
        pairs(0, two, three, altered_tables(180, 1)),
        pairs(0, three, two, altered_tables(180, 1)),
        pairs(
            0,
            numbered(3, 1, 0, 24, 10007),
            numbered(3, 2, 0, 24, 80021),
            altered_tables(216, 1),
        ),
        pairs(
            0,
            numbered(3, 2, 0, 16, 120011),
            numbered(3, 2, 0, 16, 121013),
            altered_tables(378, 1),
        ),
    ]
}

// Pairs with observations from 0 to 3 under a hidden mask, which are two of the other series but for the observations: with mask 2 their counts
// are the same.
fn masked(hidden: u8) -> [Series; 2] {
    [
        pairs(
            hidden,
            numbered(1, 1, 1, 16, 1),
            numbered(2, 1, 2, 1024, 1),
            every_table(25, 16, 7),
        ),
        pairs(
            hidden,
            numbered(2, 2, 2, 32, 119),
            numbered(3, 2, 5, 32, 60811),
            altered_tables(180, 1),
        ),
    ]
}

// The lengths of a machine's rings, and its sets.
fn ring(first: u32, second: u32, sets: usize) -> Rings
    ensures { result ≡ record { first = first; second = second; sets = sets } }
{
    Rings {
        first,
        second,
        sets,
    }
}

// A pair of rings, with the solver's table and all that differ from it in one entry.
#[derive(Clone, Copy)]
struct RingPair {
    family: Family,
    concrete: Rings,
    abstraction: Rings,
    tables: u64,
}

fn rings_of(family: Family, concrete: Rings, abstraction: Rings, tables: u64) -> RingPair {
    RingPair {
        family,
        concrete,
        abstraction,
        tables,
    }
}

// Pairs of the first family: four of coprime rings, two of others, and one with an entry past the states.
fn staying() -> [RingPair; 7] {
    [
        rings_of(
            Family::Staying { entry: 1 },
            ring(2, 2, 2),
            ring(3, 3, 1),
            7380,
        ),
        rings_of(
            Family::Staying { entry: 0 },
            ring(3, 3, 1),
            ring(2, 2, 2),
            8576,
        ),
        rings_of(
            Family::Staying { entry: 2 },
            ring(3, 2, 1),
            ring(2, 5, 1),
            6160,
        ),
        rings_of(
            Family::Staying { entry: 3 },
            ring(2, 3, 1),
            ring(3, 5, 1),
            7308,
        ),
        rings_of(
            Family::Staying { entry: 1 },
            ring(3, 2, 1),
            ring(2, 3, 1),
            4158,
        ),
        rings_of(
            Family::Staying { entry: 0 },
            ring(2, 2, 2),
            ring(2, 2, 2),
            9504,
        ),
        rings_of(
            Family::Staying { entry: 9 },
            ring(2, 2, 1),
            ring(3, 3, 1),
            3780,
        ),
    ]
}

// Pairs of the second family: four of coprime rings, two of others, and one with too long a ring.
fn leading_back() -> [RingPair; 7] {
    [
        rings_of(Family::LeadingBack, ring(2, 2, 2), ring(3, 3, 1), 12402),
        rings_of(Family::LeadingBack, ring(3, 3, 1), ring(2, 2, 2), 16016),
        rings_of(Family::LeadingBack, ring(3, 2, 1), ring(2, 5, 1), 9898),
        rings_of(Family::LeadingBack, ring(2, 3, 1), ring(3, 5, 1), 11340),
        rings_of(Family::LeadingBack, ring(3, 2, 1), ring(2, 3, 1), 7308),
        rings_of(Family::LeadingBack, ring(2, 2, 2), ring(2, 2, 1), 8910),
        rings_of(Family::LeadingBack, ring(2, 2, 1), ring(3, 60, 1), 6318),
    ]
}

// Compares some pairs of rings.
fn compare_rings(pairs: &[RingPair]) -> Tally {
    let mut sum = Tally::default();
    for r in pairs {
        let p = rings::ring_pair(r.family, r.concrete, r.abstraction);
        sum = sum + comparison::compare_pair(p, altered_tables(r.tables, 2));
    }
    sum
}

fn main(rt: HostRuntime) -> io::Result<()> {
    for s in tiny() {
        line(&rt, s)?;
    }
    for s in small() {
        line(&rt, s)?;
    }
    for hidden in 0..4 {
        for s in masked(hidden) {
            line(&rt, s)?;
        }
    }
    print!(rt; "rings with ends that stay")?;
    counts(&rt, compare_rings(&staying()))?;
    print!(rt; "rings with an end that leads back")?;
    counts(&rt, compare_rings(&leading_back()))
}
