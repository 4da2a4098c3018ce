// Machines, pairs, tables and lassos from numbers, so that all small ones can be gone through by counting.
ghost use Rattle.std.specs.Prelude.{cond, ◌≡◌, ◌+◌, length};
ghost use Rattle.mask.specs.Bits.{has_bit};
ghost use Rattle.brute.specs.Numbers.{digit_of, entry_of, numbered_table, states_of, numbered_machine, numbered_pair};

use crate::lists::put_each;
use machine::{Machine, Pair};
use std::array;

// How many states and sets a machine has; each of its masks is a digit from 0 to `top`. The observations of the states of `twos` have 2 added.
#[derive(Clone, Copy)]
pub struct Shape {
    pub states: usize,
    pub sets: usize,
    pub top: u32,
    pub twos: u64,
}

// Digit i of x, from the lowest, where digits run from 0 to `top`.
pub fn digit(x: u64, top: u32, i: usize) -> u64
    ensures { result ≡ digit_of top x i }
{
    let base = top as u64 + 1;
    let mut rest = x;
    for _ in 0..i {
        rest /= base;
    }
    rest % base
}

// Digit i of x where a test holds, and else 0. `b.then(|| digit(x, top, i)).unwrap_or(0)` says the same in more words.
fn digit_if(b: bool, x: u64, top: u32, i: usize) -> u64
    ensures { result ≡ cond b (digit_of top x i) 0 }
{
    if b { digit(x, top, i) } else { 0 }
}

// The observation of state s: 1 for a state of the first mask, and 2 more for one of the second.
fn observation_of(ones: u64, twos: u64, s: usize) -> u8
    ensures { result ≡ cond (has_bit ones s) 1 0 + cond (has_bit twos s) 2 0 }
{
    u8::from(mask::has(ones, s)) + 2 * u8::from(mask::has(twos, s))
}

// Machine number x of a shape: digit 0 is its start mask, digit 1 has the states of an odd observation, then come the successor masks, then
// the sets.
pub fn numbered_machine(shape: Shape, x: u64) -> Machine
    ensures { result ≡ numbered_machine shape x }
{
    let ones = digit(x, shape.top, 1);
    let first_set = 2 + shape.states.min(64);
    Machine {
        states: shape.states,
        sets: shape.sets,
        start: digit(x, shape.top, 0),
        observations: array::from_fn(|s| observation_of(ones, shape.twos, s)),
        successors: array::from_fn(|s| digit_if(s < shape.states, x, shape.top, 2 + s)),
        fairness: array::from_fn(|k| digit_if(k < shape.sets, x, shape.top, first_set + k)),
    }
}

// The pair of concrete machine number x and abstract machine number y, under a hidden mask.
pub fn numbered_pair(concrete: Shape, abstraction: Shape, hidden: u8, x: u64, y: u64) -> Pair
    ensures { result ≡ numbered_pair concrete abstraction hidden x y }
{
    Pair {
        concrete: numbered_machine(concrete, x),
        abstraction: numbered_machine(abstraction, y),
        hidden,
    }
}

// The entry that a digit stands for: blank for 0, and else one less.
pub fn entry_of(d: u16) -> u16
    ensures { result ≡ entry_of d }
{
    if d == 0 { machine::BLANK } else { d - 1 }
}

// Puts table number x, of n entries, into `table`; what is past them is kept.
pub fn put_entries(x: u64, top: u16, n: usize, table: &mut [u16])
    ensures { table.new ≡ numbered_table top x n table.old }
{
    let end = n.min(table.len());
    put_each(
        &mut table[..end],
        |e| entry_of(digit(x, u32::from(top), e) as u16),
    );
}

// Fills `out` with the digits of x.
pub fn put_states(x: u64, top: u8, out: &mut [u8])
    ensures { out.new ≡ states_of top x (length out.old) }
{
    put_each(out, |i| digit(x, u32::from(top), i) as u8);
}
