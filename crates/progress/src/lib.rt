// The solver by turns, for a caller who wants to go on between turns. A family of sets of pairs is 448 masks, 7 x 64 rows, row j x 64 + c
// for section j, counted from 0, and concrete state c: the abstract states beside c that are still in. Any content has a meaning: turn and look-up
// see only the matched pairs of the machines. It is one flat list, apart from the machines and the table, as C lends it.
#![tactic(auto)]

ghost use Rattle.std.specs.Prelude.{◌≡◌, ◌<◌, length, replicate};
ghost use Rattle.std.specs.Result.{result_unwrap_or};
ghost use Rattle.machine.specs.Machines.{n_c, n_a, sets_a};
ghost use Rattle.machine.specs.Table.{entries};
ghost use Rattle.progress.specs.Turns.{first_rows, first_answer, first_given, turn_answer, turn_family, turn_table, still_in, range_validity, look_up_answer};

use machine::{Formed, Pair, Refusal};
use std::array;
use validity::Sets;

// ---- The first family

// All matched pairs in every section.
fn first_rows(formed: &Formed) -> [u64; 448]
    ensures { result ≡ first_rows formed.now.pair.now }
{
    let sections = formed.pair.abstraction.sets;
    let matched = machine::matched_masks(*formed.pair);
    array::from_fn(|e| if e / 64 < sections {
        matched[e % 64]
    } else {
        0
    })
}

// The family before the first turn: all matched pairs in every section. What is given, or zeros beside a refusal, is what lists of turns begin with.
pub fn first_family(p: Pair) -> Result<[u64; 448], Refusal>
    ensures answer { result ≡ first_answer p }
    ensures family { result_unwrap_or result (replicate 448 0) ≡ first_given p }
{
    validity::pair_validity(p, Sets::Nonempty)?;
    let formed = Formed { pair: &p };
    Ok(first_rows(&formed))
}

// ---- A turn

// How many entries a table of well-formed machines has: n x P.
fn entries_of(formed: &Formed) -> usize
    ensures { result ≡ entries formed.now.pair.now }
{
    let p = formed.pair;
    p.abstraction.sets * (p.concrete.states * p.abstraction.states)
}

// A turn: every section's set afresh from the family. It is finished if each row is as it was, and says so; only then it writes the table, the
// ranks over the family, into a lent table of 28,672 entries or more: exactly n x P entries. Beside a refusal the family stays as it was.
pub fn turn(p: Pair, family: &mut [u64; 448], table: &mut [u16]) -> Result<bool, Refusal>
    ensures answer { result ≡ turn_answer p family.old (length table.old) }
    ensures family { family.new ≡ turn_family p family.old (length table.old) }
    ensures content { table.new ≡ turn_table p family.old table.old }
{
    // tested here too, since the solver is lent a table of our own
    if table.len() < machine::TABLE_ROOM {
        return Err(Refusal::ShortBuffer);
    }
    let mut ranks = [0u16; machine::TABLE_ROOM];
    let before = *family;
    solver::turn_family(p, family, &mut ranks)?;
    let finished = before == *family;
    let formed = Formed { pair: &p };
    let written = if finished { entries_of(&formed) } else { 0 };
    table[..written].copy_from_slice(&ranks[..written]);
    Ok(finished)
}

// ---- The look-up

// Whether a pair is still in section j, counted from 0. Section and states come one by one, here and below, as document 02 numbers them and C hands
// them in: only the test of their range would take them as one.
fn still_in(formed: &Formed, family: &[u64; 448], j: usize, c: usize, a: usize) -> bool
    requires { let p = formed.now.pair.now in (j < sets_a p) × ((c < n_c p) × (a < n_a p)) }
    ensures { result ≡ still_in formed.now.pair.now family.now j c a }
{
    let p = formed.pair;
    let shown = p.concrete.observations[c];
    let seen = p.abstraction.observations[a];
    machine::same_observation(p.hidden, shown, seen) && mask::has(family[j * 64 + c], a)
}

// 20 for a section, counted from 1, or a state that is out of range.
fn range_validity(p: Pair, section: usize, c: usize, a: usize) -> Result<(), Refusal>
    ensures { result ≡ range_validity p section c a }
{
    if section < 1
        || p.abstraction.sets < section
        || p.concrete.states <= c
        || p.abstraction.states <= a
    {
        return Err(Refusal::OutOfRange);
    }
    Ok(())
}

// Looks a pair up in a section, counted from 1: whether it is still in, and not struck out.
pub fn look_up(
    p: Pair,
    family: &[u64; 448],
    section: usize,
    c: usize,
    a: usize,
) -> Result<bool, Refusal>
    ensures { result ≡ look_up_answer p family.now section c a }
{
    let machines = validity::pair_validity(p, Sets::Nonempty);
    let range = range_validity(p, section, c, a);
    machines.and(range)?;
    let formed = Formed { pair: &p };
    Ok(still_in(&formed, family, section - 1, c, a))
}
