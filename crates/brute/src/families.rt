// Families of sets of pairs, as the solver by turns takes them: 448 masks, row j x 64 + c for section j and concrete state c. Any content is one.
ghost use Rattle.std.specs.Prelude.{◌≡◌, ◌<◌};
ghost use Rattle.mask.specs.Bits.{has_bit};
ghost use Rattle.mask.specs.Bounded.{every};
ghost use Rattle.mask.specs.Logic.{not, or};
ghost use Rattle.machine.specs.Table.{entries};
ghost use Rattle.brute.specs.Families.{is_pair, holds_pairs, family_entry, family_table, row_number, numbered_family};

use crate::lists::put_each;
use crate::machines::{is_matched, validity};
use crate::numbers::digit;
use machine::{Formed, Pair};
use std::array;

// ---- The table that covers what a family holds

// Entry number e: 0 for a matched pair whose bit is set, and else blank.
fn family_entry(p: Formed, family: &[u64; 448], e: usize) -> u16
    requires { e < entries p.pair.now }
    ensures { result ≡ family_entry p.entry.pair.now family.now e }
{
    let concrete = &p.pair.concrete;
    let abstraction = &p.pair.abstraction;
    let pairs = concrete.states * abstraction.states;
    // computed from the counts, as in `Tabled::entry_at`
    let j = e / pairs;
    let c = e % pairs / abstraction.states;
    let a = e % abstraction.states;
    if is_matched(p.pair, c, a) && mask::has(family[j * 64 + c], a) {
        0
    } else {
        machine::BLANK
    }
}

// Puts n x P entries that cover the matched pairs of a family. A table that is short and one of machines that are not well formed are kept.
pub fn put_family(p: Pair, family: &[u64; 448], table: &mut [u16])
    ensures { table.new ≡ family_table p family.now table.old }
{
    let concrete = &p.concrete;
    let abstraction = &p.abstraction;
    if table.len() < machine::TABLE_ROOM || validity(p).is_err() {
        return;
    }
    let entries = abstraction.sets * (concrete.states * abstraction.states);
    let formed = Formed { pair: &p };
    put_each(&mut table[..entries], |e| family_entry(formed, family, e));
}

// ---- Stray bits

// Whether (c, a) is a matched pair of the machines, and j one of their sections.
fn is_pair(p: &Pair, j: usize, c: usize, a: usize) -> bool
    ensures { result ≡ is_pair p.now j c a }
{
    let concrete = &p.concrete;
    let abstraction = &p.abstraction;
    j < abstraction.sets && c < concrete.states && a < abstraction.states && is_matched(p, c, a)
}

// Whether each bit of a row stands for such a pair.
fn row_holds(p: &Pair, j: usize, c: usize, row: u64) -> bool
    ensures { result ≡ every 64 (λ a. or (not (has_bit row a)) (is_pair p.now j c a)) }
{
    // most rows have no bit at all
    row == 0 || (0..64).all(|a| !mask::has(row, a) || is_pair(p, j, c, a))
}

// Whether each bit of a family stands for such a pair: it has no stray bits.
pub fn holds_pairs(p: Pair, family: &[u64; 448]) -> bool
    ensures { result ≡ holds_pairs p family.now }
{
    // computed, as in `row_number`
    (0..448).all(|e| row_holds(&p, e / 64, e % 64, family[e]))
}

// ---- Families from numbers

// The number of row e among those of n sections and nc concrete states, section by section; that after the last for any other row.
fn row_number(n: u8, nc: u8, e: usize) -> usize
    requires { e < 448 }
    ensures { result ≡ row_number n nc e }
{
    // computed, since a family is handed over as one array of 448 rows
    let sections = n as usize;
    let width = nc as usize;
    let j = e / 64;
    let c = e % 64;
    if j < sections && c < width {
        j * width + c
    } else {
        sections * width
    }
}

// Family number x of n sections and nc concrete states: each of their rows is a digit from 0 to `top`, and all other rows are the digit after these.
pub fn numbered_family(n: u8, nc: u8, top: u32, x: u64) -> [u64; 448]
    ensures { result ≡ numbered_family n nc top x }
{
    array::from_fn(|e| digit(x, top, row_number(n, nc, e)))
}
