// The line check: document 01, "Line check". It sees the machines and the step, and not the solver.
// Cost: for each non-blank entry and each successor of its concrete state, one search among the successors of its abstract state, which stops
// at the first that serves: at most n x nC x nA x nC x nA looks at an entry, and on passing tables far fewer. Nothing divides but by fixed powers
// of two. A table is one buffer of entries, as document 01 and the files have it; `entry_index` tells where an entry or a row lies.
// Machines and table come apart, as the reader gives and C lends them; that the table has its room, and that a section, a state, an entry or a count is
// in range, is said where it is used: numbers have no types for that, and `Formed` holds a pair alone.
#![tactic(auto)]

ghost use Rattle.std.specs.Prelude.{◌≡◌, ◌+◌, ◌<◌, ◌≤◌, length, get_or, eqb, Ok};
ghost use Rattle.mask.specs.Logic.{not, and};
ghost use Rattle.mask.specs.Bounded.{count, below};
ghost use Rattle.machine.specs.Machines.{n_c, starts};
ghost use Rattle.machine.specs.WellFormed.{has_empty_set};
ghost use Rattle.machine.specs.declared.Refusal.TheVariants.{FailingEntry};
ghost use Rattle.machine.specs.Ranks.{level_of, set_of};
ghost use Rattle.machine.specs.Table.{blank, table_room};
ghost use Rattle.machine.specs.Lines.{lines_validity};
ghost use Rattle.machine.specs.Observed.{matched_masks};
ghost use Rattle.machine.specs.Verdict.{start_covered, lacking_start, start_verdict, verdict_of, empty_set_of, check_verdict, check_empty_set};
ghost use Rattle.linecheck.specs.Bounds.{line_of};
ghost use Rattle.linecheck.specs.Reciprocal.{reciprocal_of};

use machine::{Checked, Formed, Pair, Refusal, Verdict};
use validity::Sets;

// What an entry asks of each step: partners in `section` whose entry is at most `bound`.
#[derive(Clone, Copy)]
struct Line {
    section: usize,
    bound: u16,
}

// An entry's l and k, k counted from 0. Brute force has the same struct of its own, as it shares nothing with the product.
#[derive(Clone, Copy)]
struct Level {
    level: usize,
    set: usize,
}

// 2^19 / m, rounded up: a number of 16 bits, multiplied with it and shifted by 19, is divided by m. The arm 0 is that of 8. Each value modulo 8
// has an arm, so that the compiler makes a list of them and tests no range.
fn reciprocal_of(m: usize) -> usize
    requires { (0 < m) × (m ≤ 8) }
    ensures { result ≡ reciprocal_of m }
{
    match m % 8 {
        0 => 65536,
        1 => 524288,
        2 => 262144,
        3 => 174763,
        4 => 131072,
        5 => 104858,
        6 => 87382,
        _ => 74899,
    }
}

// The l and k of an entry that is not 0. A division by m would be dear on some processors.
fn level_of(m: usize, e: u16) -> Level
    requires { ((0 < m) × (m ≤ 8)) × (0 < e) }
    ensures { (result.level ≡ level_of m e) × (result.set ≡ set_of m e) }
{
    let entry = e as usize;
    let x = entry - 1;
    let quotient = (x * reciprocal_of(m)) >> 19;
    Level {
        level: quotient + 1,
        set: x - quotient * m,
    }
}

// What the entry e of (j, c, a) asks, by document 01's lines; nothing if it fails before any step. `most` is m x P, `next` the section after j;
// `matched` has the states that are matched with c. It has ten parameters, as the loops around it make each of them no more often than it changes.
fn line_of(
    m: usize,
    most: usize,
    j: usize,
    next: usize,
    c: usize,
    a: usize,
    e: u16,
    matched: u64,
    concrete_sets: &[u64; 8],
    abstract_set: u64,
) -> Option<Line>
    requires { (0 < m) × (m ≤ 8) }
    ensures { result ≡ line_of m most j next c a e matched concrete_sets.now abstract_set }
{
    if !mask::has(matched, a) || most < e as usize {
        return None;
    }
    if e == 0 {
        let goal = Line {
            section: next,
            bound: machine::BLANK - 1,
        };
        return mask::has(abstract_set, a).then_some(goal);
    }
    let rank = level_of(m, e);
    let k = rank.set;
    let below = (rank.level - 1) * m;
    let lower = below as u16;
    let inside = mask::has(concrete_sets[k], c);
    let bound = if inside { lower } else { e };
    Some(Line { section: j, bound })
}

// The refusal of the entry that fails; its spot counts sections from 1.
fn failing_entry(j: usize, c: usize, a: usize) -> Refusal
    requires { j < 7 }
    ensures { result ≡ FailingEntry (j + 1) c a }
{
    let section = j + 1;
    Refusal::FailingEntry { section, c, a }
}

// Whether each line of a table holds, and if not where the first is that fails. The loops are left by their label: document 01 names this form.
fn lines_validity(formed: Formed, matched: [u64; 64], table: &[u16]) -> Result<(), Refusal>
    requires { (matched ≡ matched_masks formed.pair.now) × (table_room ≤ length table.now) }
    ensures { result ≡ lines_validity formed.entry.pair.now table.now }
{
    let concrete = formed.pair.concrete;
    let abstraction = formed.pair.abstraction;
    let nc = concrete.states;
    let na = abstraction.states;
    let m = concrete.sets;
    let n = abstraction.sets;
    let concrete_sets = concrete.fairness;
    let most = m * (nc * na);
    let mut answer = Ok(());
    'lines: for j in 0..n {
        let next = machine::next_section(n, j);
        for c in 0..nc {
            for a in 0..na {
                let at = machine::entry_index(nc, na, j, c, a);
                let e = table[at];
                if e != machine::BLANK {
                    let Some(line) = line_of(
                        m,
                        most,
                        j,
                        next,
                        c,
                        a,
                        e,
                        matched[c],
                        &concrete_sets,
                        abstraction.fairness[j],
                    ) else {
                        answer = Err(failing_entry(j, c, a));
                        break 'lines;
                    };
                    let section = line.section;
                    let bound = line.bound;
                    let moves = abstraction.successors[a];
                    let mut rest = concrete.successors[c];
                    while rest != 0 {
                        let d = mask::lowest(rest);
                        let from = machine::entry_index(nc, na, section, d, 0);
                        let to = from + na;
                        if !machine::has_partner(moves, matched[d], &table[from..to], bound) {
                            answer = Err(failing_entry(j, c, a));
                            break 'lines;
                        }
                        rest = mask::rest(rest);
                    }
                }
            }
        }
    }
    answer
}

// How many entries are not blank. A loop: `filter` and `count` take two to three times the instructions under LLVM (tried).
fn covered_count(entries: &[u16]) -> usize
    ensures { result ≡ count (length entries.now) (λ e. not (eqb (get_or entries.now e 0) blank)) }
{
    let mut found = 0;
    for e in entries {
        if *e != machine::BLANK {
            found += 1;
        }
    }
    found
}

// Whether c is a concrete start state without an abstract start state beside it that is not blank in section 1.
fn lacks_partner(formed: Formed, table: &[u16], c: usize) -> bool
    requires { (table_room ≤ length table.now) × (c < n_c formed.pair.now) }
    ensures { result ≡ and (starts formed.entry.pair.now.concrete c) (not (start_covered formed.entry.pair.now table.now c)) }
{
    let concrete = &formed.pair.concrete;
    let abstraction = &formed.pair.abstraction;
    if !mask::has(concrete.start, c) {
        return false;
    }
    let na = abstraction.states;
    let start = abstraction.start;
    let from = machine::entry_index(concrete.states, na, 0, c, 0);
    !machine::has_partner(start, start, &table[from..from + na], machine::BLANK - 1)
}

// The lowest such state.
fn lacking_start(formed: Formed, table: &[u16]) -> Option<usize>
    requires { table_room ≤ length table.now }
    ensures { result ≡ below (n_c formed.entry.pair.now) (lacking_start formed.entry.pair.now table.now) }
{
    (0..formed.pair.concrete.states).find(|c| lacks_partner(formed, table, *c))
}

// The check: what the table says of the pair, or where it was stopped.
pub fn check_table(p: Pair, table: &[u16]) -> Result<Checked, Refusal>
    ensures verdict { verdict_of result ≡ check_verdict p table.now }
    ensures empty { empty_set_of result ≡ check_empty_set p table.now }
{
    if table.len() < machine::TABLE_ROOM {
        return Err(Refusal::ShortBuffer);
    }
    validity::pair_validity(p, Sets::Any)?;
    let formed = Formed { pair: &p };
    lines_validity(formed, machine::matched_masks(p), table)?;
    Ok(checked_of_starts(formed, table))
}

// What is said of a table that passes each line.
fn checked_of_starts(formed: Formed, table: &[u16]) -> Checked
    requires { table_room ≤ length table.now }
    ensures verdict { result.verdict ≡ start_verdict formed.entry.pair.now table.now }
    ensures empty { result.empty_set ≡ has_empty_set formed.entry.pair.now.concrete }
{
    let concrete = formed.pair.concrete;
    let abstraction = formed.pair.abstraction;
    let nc = concrete.states;
    let na = abstraction.states;
    let n = abstraction.sets;
    let covered = covered_count(&table[..n * (nc * na)]);
    let verdict = match lacking_start(formed, table) {
        Some(lacking) => Verdict::NotCarried { lacking, covered },
        None => Verdict::Carried { covered },
    };
    let empty_set = validity::has_empty_set(concrete);
    Checked { verdict, empty_set }
}
