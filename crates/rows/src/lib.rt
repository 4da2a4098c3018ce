// Sets of pairs as 64 rows: row c is the mask of the abstract states beside concrete state c. One application of "steps into" goes to
// all pairs at once. Every public call takes any content: a count of states over 64 means 64, but for entries, which are then no section; any
// masks have a meaning; and `largest`, which leaves its result open for some, says for which.
// Cost: the partners of a row are the union of the predecessors of its states, and a pair's step meets one row for each concrete move.
// A count comes beside 64 rows or entries, as in `machine::Machine`, whose memory is fixed, and two counts come by themselves: any are taken.
#![tactic(auto)]

ghost use Rattle.std.specs.Prelude.{◌≡◌, cond, ℕ, ◌^◌, ◌<◌, ◌≤◌, length};
ghost use Rattle.std.specs.Int.Bits.{bit_or};
ghost use Rattle.mask.specs.Tables.{table};
ghost use Rattle.machine.specs.Table.{blank};
ghost use Rattle.rows.specs.Folds.{fold_rows};
ghost use Rattle.rows.specs.Largest.{Known, Largest};
ghost use Rattle.rows.specs.Entries.{row_upto, upto_of, without, write_row, write_of, row_count};
ghost use Rattle.rows.specs.Rows.{movers_of, predecessors_of, partners_of, partner_rows, meet_of, step_rows, goal_rows, join_rows, same_rows};

use std::array;

// The states below n that move to b.
fn movers(n: usize, moves: &[u64; 64], b: usize) -> u64
    ensures { result ≡ movers_of n moves.now b }
{
    mask::those(n, |a| mask::has(moves[a], b))
}

// For each state below n the mask of the states below n that move to it.
pub fn predecessors(n: usize, moves: &[u64; 64]) -> [u64; 64]
    ensures { result ≡ predecessors_of n moves.now }
{
    array::from_fn(|b| if b < n { movers(n, moves, b) } else { 0 })
}

// The rows of the states of a mask, joined to a first one from the lowest state on.
fn fold_rows<F: Fn(u64, u64) -> u64>(rows: &[u64; 64], states: u64, first: u64, join: F) -> u64
    requires { F.IsAlwaysCallable join }
    ensures { (g : ℕ → ℕ → ℕ) → ((x y r : ℕ) → x < 2 ^ 64 → y < 2 ^ 64 → F.post join x y r → r ≡ g x y) → result ≡ fold_rows g rows.now states first }
{
    let mut m = first;
    let mut left = states;
    while left != 0 {
        m = join(m, rows[mask::lowest(left)]);
        left = mask::rest(left);
    }
    m
}

// The states that have a partner in the row: the predecessors of its states.
pub fn partners(predecessors: &[u64; 64], row: u64) -> u64
    ensures { result ≡ partners_of predecessors.now row }
{
    fold_rows(predecessors, row, 0, |m, states| m | states)
}

// For each d below nc the states that have a partner in row d of the set. Here and in `step_rows` a loop ends with the count: `array::from_fn` goes
// over all 64 rows, which takes 11 in 100 more instructions for solving 8 by 8, and 6 by the kit's own compiler (tried).
pub fn partner_rows(nc: usize, predecessors: &[u64; 64], set: &[u64; 64]) -> [u64; 64]
    ensures { result ≡ partner_rows nc predecessors.now set.now }
{
    let mut out = [0u64; 64];
    for d in 0..nc.min(64) {
        out[d] = partners(predecessors, set[d]);
    }
    out
}

// The states that are in the row of each of the moves.
pub fn meet(moves: u64, rows: &[u64; 64]) -> u64
    ensures { result ≡ meet_of moves rows.now }
{
    fold_rows(rows, moves, mask::full(64), |m, states| m & states)
}

// For each c below nc the states a such that (c, a) steps into the set: concrete moves, and the predecessors of abstract states.
pub fn step_rows(
    nc: usize,
    moves: &[u64; 64],
    predecessors: &[u64; 64],
    set: &[u64; 64],
) -> [u64; 64]
    ensures { result ≡ step_rows nc moves.now predecessors.now set.now }
{
    let rows = partner_rows(nc, predecessors, set);
    let mut out = [0u64; 64];
    for c in 0..nc.min(64) {
        out[c] = meet(moves[c], &rows);
    }
    out
}

// The goals of a section, from its set and from the pairs that step into the next section.
pub fn goal_rows(matched: &[u64; 64], members: u64, steps: &[u64; 64]) -> [u64; 64]
    ensures { result ≡ goal_rows matched.now members steps.now }
{
    array::from_fn(|c| matched[c] & (members & steps[c]))
}

// The matched pairs that are in one of two sets.
pub fn join_rows(matched: &[u64; 64], x: &[u64; 64], y: &[u64; 64]) -> [u64; 64]
    ensures { result ≡ join_rows matched.now x.now y.now }
{
    array::from_fn(|c| matched[c] & (x[c] | y[c]))
}

// Whether two sets have the same rows below nc. `==` takes 2.1 times the instructions under the kit's own compiler (tried on 448 masks).
pub fn same_rows(nc: usize, x: &[u64; 64], y: &[u64; 64]) -> bool
    ensures { result ≡ same_rows nc x.now y.now }
{
    (0..nc.min(64)).all(|c| x[c] == y[c])
}

// ---- The largest set within a start

// What may be in a row of X: its base, and outside the set the states that step into X, by the partner rows of X.
fn rule_row(moves: u64, reached: &[u64; 64], base: u64, inside: bool) -> u64
    ensures { result ≡ bit_or base (cond inside 0 (meet_of moves reached.now)) }
{
    let steps = if inside { 0 } else { meet(moves, reached) };
    base | steps
}

// The largest set within the start that meets the rule of X. Rows are due while the rule may lower them: at first all, and then those that
// move to a row that was lowered. The predecessors of concrete states and the partner rows of the start are handed in, since many calls share
// them; of others than these, and of a count over 64, the result is left open. Masks and rows come one by one, here and in `step_rows`,
// since each is shared by other calls.
pub fn largest(
    nc: usize,
    moves: &[u64; 64],
    dependents: &[u64; 64],
    predecessors: &[u64; 64],
    base: &[u64; 64],
    members: u64,
    start: &[u64; 64],
    first: &[u64; 64],
) -> [u64; 64]
    ensures { Known nc moves.now dependents.now predecessors.now start.now first.now → Largest nc moves.now predecessors.now base.now members start.now result }
{
    let mut x = *start;
    let mut reached = *first;
    let mut due = mask::full(nc);
    while due != 0 {
        let c = mask::lowest(due);
        let old = x[c];
        let row = old & rule_row(moves[c], &reached, base[c], mask::has(members, c));
        due = mask::rest(due);
        if row != old {
            x[c] = row;
            reached[c] = partners(predecessors, row);
            due |= dependents[c];
        }
    }
    x
}

// ---- Entries

// How many rows the entries have: nc where they are a section of nc by na pairs, of at most 64 by 64, and else none.
fn row_count(nc: usize, na: usize, entries: usize) -> usize
    ensures { result ≡ row_count nc na entries }
{
    if nc <= 64 && na <= 64 && entries == nc * na {
        nc
    } else {
        0
    }
}

// The states whose entry in the row is at most the bound.
fn row_upto(row: &[u16], bound: u16) -> u64
    requires { length row.now ≤ 64 }
    ensures { result ≡ row_upto row.now bound }
{
    mask::those(row.len(), |a| row[a] <= bound)
}

// The pairs of a section whose entry is at most the bound; none where the entries are no section of nc by na, of at most 64 by 64.
pub fn upto(nc: usize, na: usize, part: &[u16], bound: u16) -> [u64; 64]
    ensures { result ≡ upto_of nc na part.now bound }
{
    let mut out = [0u64; 64];
    let end = row_count(nc, na, part.len());
    // a loop, as in `write_entry`: chunks of na entries would panic for an na of 0; with `array::from_fn` the closure's proof that its row lies within
    // the section did not close (tried)
    for c in 0..end {
        let from = c * na;
        let to = from + na;
        out[c] = row_upto(&part[from..to], bound);
    }
    out
}

// Makes all entries blank.
pub fn clear(part: &mut [u16])
    ensures { part.new ≡ table (length part.old) (λ e. blank) }
{
    part.fill(machine::BLANK);
}

// The states of x that are not in y.
fn without(x: u64, y: u64) -> u64
    ensures { result ≡ without x y }
{
    x ^ (x & y)
}

// Writes the entry v for each state of the row, in a walk of its own: `fold_rows` makes one value of many rows.
fn write_row(row: u64, v: u16, part: &mut [u16])
    ensures { part.new ≡ write_row row v part.old }
{
    let mut left = row;
    while left != 0 {
        let a = mask::lowest(left);
        if a < part.len() {
            part[a] = v;
        }
        left = mask::rest(left);
    }
}

// Writes the entry v for each pair of x that is not in y; nothing where the entries are no section of nc by na, of at most
// 64 by 64. A loop over the rows, for the reason in `upto`.
pub fn write_entry(nc: usize, na: usize, x: &[u64; 64], y: &[u64; 64], v: u16, part: &mut [u16])
    ensures { part.new ≡ write_of nc na x.now y.now v part.old }
{
    let end = row_count(nc, na, part.len());
    for c in 0..end {
        let from = c * na;
        let to = from + na;
        write_row(without(x[c], y[c]), v, &mut part[from..to]);
    }
}
