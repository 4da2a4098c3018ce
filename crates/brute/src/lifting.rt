// A solver by another algorithm, first half: lifting. Every entry starts at 0; an entry that fails its line is raised by one, and to blank
// after the greatest rank, until each line passes. Raising keeps every passing table at or above the one that is raised, so what is left
// non-blank in the end is all that a passing table can cover; its entries need not be the ranks.
ghost use Rattle.std.specs.Prelude.{◌++◌, ◌≡◌, ◌<◌, ◌≤◌, length, drop, replicate};
ghost use Rattle.machine.specs.Table.{entries};
ghost use Rattle.brute.specs.Lifting.{raised, lifted_at, swept, lifted_table};

use crate::lines::Tabled;
use crate::machines::validity;
use machine::{Formed, Pair};

// The entry after e: one more, and blank after the greatest rank.
fn raise(most: usize, e: u16) -> u16
    requires { most ≤ 32768 }
    ensures { result ≡ raised most e }
{
    if (e as usize) < most {
        e + 1
    } else {
        machine::BLANK
    }
}

// Raises entry number e where it fails its line.
fn lift_entry(p: Formed, table: &mut [u16], e: usize)
    requires { (e < entries p.pair.now) × (entries p.pair.now ≤ length table.old) }
    ensures { table.new ≡ lifted_at p.entry.pair.now e table.old }
{
    let concrete = &p.pair.concrete;
    let abstraction = &p.pair.abstraction;
    let pairs = concrete.states * abstraction.states;
    // computed from the counts, as in `Tabled::entry_at`
    let c = e % pairs / abstraction.states;
    let a = e % abstraction.states;
    let tabled = Tabled {
        pair: p.pair,
        table,
    };
    if !tabled.entry_passes(e / pairs, c, a) {
        table[e] = raise(concrete.sets * pairs, table[e]);
    }
}

// Raises each entry that fails, in the order of the entries.
fn sweep(p: Formed, table: &mut [u16])
    requires { entries p.pair.now ≤ length table.old }
    ensures { table.new ≡ swept p.entry.pair.now (entries p.entry.pair.now) table.old }
{
    let concrete = &p.pair.concrete;
    let abstraction = &p.pair.abstraction;
    for e in 0..abstraction.sets * (concrete.states * abstraction.states) {
        lift_entry(p, table, e);
    }
}

// Puts 0 into the first n entries; the table has room for the largest machines.
fn put_zeros(n: usize, table: &mut [u16])
    requires { n ≤ length table.old }
    ensures { table.new ≡ replicate n 0 ++ drop n table.old }
{
    table[..n].fill(0);
}

// Lifts the n x P entries from 0 until each line passes. A table that is short and one of machines that are not well formed are kept.
pub fn lift(p: Pair, table: &mut [u16])
    ensures { table.new ≡ lifted_table p table.old }
{
    let concrete = &p.concrete;
    let abstraction = &p.abstraction;
    if table.len() < machine::TABLE_ROOM || validity(p).is_err() {
        return;
    }
    let pairs = concrete.states * abstraction.states;
    let count = abstraction.sets * pairs;
    put_zeros(count, table);
    let formed = Formed { pair: &p };
    for _ in 0..count * (concrete.sets * pairs + 2) {
        let tabled = Tabled { pair: &p, table };
        if tabled.lines().is_ok() {
            return;
        }
        sweep(formed, table);
    }
}
