// The solver: document 01's ranks of two machines, as a table.
// A set of pairs is 64 rows, for each concrete state the mask of the abstract states beside it (crate `rows`).
// `solve` makes the table in place. The entries of matched pairs begin at 0, and none is ever above its pair's rank; a section's ranks are made from its entries so far,
// and a section is made again while the set of the next one changes. `turn_family` makes every section afresh from a family that it is handed.
// Machines, table and family come apart, as C lends them. That a section's number is in range, that a lent slice has its room, and what is known of the
// goals and levels of one section is said where it is used: numbers have no type for it, no struct holds a slice between two writes, and `Game` is of all sections.
#![tactic(auto)]

ghost use Rattle.std.specs.Prelude.{◌≡◌, ◌++◌, ◌+◌, ◌-◌, ◌*◌, ◌<◌, ◌≤◌, length, take, drop, replicate};
ghost use Rattle.mask.specs.Bits.{full_mask};
ghost use Rattle.mask.specs.Tables.{table};
ghost use Rattle.machine.specs.Machines.{n_c, n_a, sets_c, sets_a, pairs, fair_set};
ghost use Rattle.machine.specs.Table.{blank, table_room};
ghost use Rattle.machine.specs.Ranks.{rank_table, solver_table};
ghost use Rattle.machine.specs.Game.{level, levels, goals};
ghost use Rattle.rows.specs.Rows.{rows_of, pairs_in, step_rows, goal_rows};
ghost use Rattle.rows.specs.Entries.{upto_rows, write_rows};
ghost use Rattle.solver.specs.Families.{section_of, family_in, turn_rows, put_section};
ghost use Rattle.solver.specs.Ranking.{Prepared, Holds, Bounded, RankedTo, AreRanks};
ghost use Rattle.solver.specs.Sweeps.{part_of, Begun, Renewable, Renewed, Sweeping};
ghost use Rattle.solver.specs.Solver.{solve_validity, solved_table, turned_family, turned_table};

use machine::{Formed, Pair, Refusal};
use validity::Sets;

// ---- The game

// What is computed once of two machines, and lent to all that makes levels: which states match, and the predecessors of the states of each. These are
// three arrays side by side, since crate `rows` takes each by itself.
#[derive(Clone, Copy)]
struct Game {
    pair: Pair,
    matched: [u64; 64],
    dependents: [u64; 64],
    predecessors: [u64; 64],
    ghost prepared: { Prepared pair matched dependents predecessors },
}

impl Game {
    fn new(formed: &Formed) -> Game
        ensures { result.pair ≡ formed.now.pair.now }
    {
        let p = formed.pair;
        let matched = machine::matched_masks(*p);
        let dependents = rows::predecessors(p.concrete.states, &p.concrete.successors);
        let predecessors = rows::predecessors(p.abstraction.states, &p.abstraction.successors);
        Game {
            pair: *p,
            matched,
            dependents,
            predecessors,
        }
    }
}

// ---- Entries

impl Game {
    // The entries that a section begins with: 0 for matched pairs, which no rank is below, and blank for all others.
    fn first_entries(&self, part: &mut [u16])
        requires { length part.old ≡ pairs self.now.pair }
        ensures { part.new ≡ write_rows (n_a self.now.pair) self.now.matched (replicate 64 0) 0 (table (pairs self.now.pair) (λ e. blank)) }
    {
        let nc = self.pair.concrete.states;
        let na = self.pair.abstraction.states;
        let none = [0u64; 64];
        rows::clear(part);
        rows::write_entry(nc, na, &self.matched, &none, 0, part);
    }
}

// ---- Levels

// The rank of the pairs that X(l + 1, k + 1) is the first to have, with l and k from 0.
fn rank_of(m: usize, l: usize, k: usize) -> u16
    requires { (m ≤ 8) × ((l < 4096) × (k < 4096)) }
    ensures { result ≡ l * m + k + 1 }
{
    (l * m + k + 1) as u16
}

// The greatest rank that a pair of level l can have; 0 of level 0, which is empty.
fn level_bound(m: usize, l: usize) -> u16
    requires { (m ≤ 8) × (l ≤ 4096) }
    ensures { result ≡ l * m }
{
    (l * m) as u16
}

impl Game {
    // Level l + 1 from level l, with its rank for each pair that X(l + 1, k) has and no set before it. Each X starts from the pairs whose entry is
    // at most (l + 1) x m.
    fn level(&self, goals: &[u64; 64], below: &[u64; 64], l: usize, part: &mut [u16]) -> [u64; 64]
        requires { let p = self.now.pair in Holds p goals.now × ((l < pairs p) × ((below.now ≡ rows_of (level p (pairs_in p goals.now) l)) × RankedTo p (pairs_in p goals.now) part.old (l * sets_c p) part.old)) }
        ensures { let p = self.now.pair in (result ≡ rows_of (level p (pairs_in p goals.now) (l + 1))) × RankedTo p (pairs_in p goals.now) part.old ((l + 1) * sets_c p) part.new }
    {
        let nc = self.pair.concrete.states;
        let na = self.pair.abstraction.states;
        let m = self.pair.concrete.sets;
        let moves = &self.pair.concrete.successors;
        let steps = rows::step_rows(nc, moves, &self.predecessors, below);
        let base = rows::join_rows(&self.matched, goals, &steps);
        let bound = level_bound(m, l + 1);
        let start = rows::upto(nc, na, part, bound);
        let reached = rows::partner_rows(nc, &self.predecessors, &start);
        let mut seen = rows::join_rows(&self.matched, goals, below);
        for k in 0..m {
            let x = rows::largest(
                nc,
                moves,
                &self.dependents,
                &self.predecessors,
                &base,
                self.pair.concrete.fairness[k],
                &start,
                &reached,
            );
            let v = rank_of(m, l, k);
            rows::write_entry(nc, na, &x, &seen, v, part);
            seen = rows::join_rows(&self.matched, &x, &seen);
        }
        seen
    }

    // The union of the levels: they grow from the empty set, until a level is the one before; and the ranks of its pairs.
    fn levels(&self, goals: &[u64; 64], part: &mut [u16]) -> [u64; 64]
        requires { let p = self.now.pair in Holds p goals.now × Bounded p (pairs_in p goals.now) part.old }
        ensures { let p = self.now.pair in (result ≡ rows_of (levels p (pairs_in p goals.now))) × RankedTo p (pairs_in p goals.now) part.old (pairs p * sets_c p) part.new }
    {
        let nc = self.pair.concrete.states;
        let na = self.pair.abstraction.states;
        let mut y = [0u64; 64];
        for l in 0..nc * na {
            let next = self.level(goals, &y, l, part);
            if rows::same_rows(nc, &y, &next) {
                return y;
            }
            y = next;
        }
        y
    }
}

// ---- Sections

impl Game {
    // The goals of section j, from the set of the next section.
    fn goals(&self, next: &[u64; 64], j: usize) -> [u64; 64]
        requires { j < sets_a self.now.pair }
        ensures { let p = self.now.pair in result ≡ goal_rows self.now.matched (fair_set p.abstraction j) (step_rows (n_c p) p.concrete.successors self.now.predecessors next.now) }
    {
        let nc = self.pair.concrete.states;
        let steps = rows::step_rows(nc, &self.pair.concrete.successors, &self.predecessors, next);
        rows::goal_rows(&self.matched, self.pair.abstraction.fairness[j], &steps)
    }

    // Makes the ranks of a section from its goals and its entries so far, of which `covered` has the pairs that are not blank; gives its levels.
    fn section(&self, goals: &[u64; 64], covered: &[u64; 64], part: &mut [u16]) -> [u64; 64]
        requires { let p = self.now.pair in Holds p goals.now × (Bounded p (pairs_in p goals.now) part.old × (covered.now ≡ upto_rows (n_c p) (n_a p) part.old (blank - 1))) }
        ensures { let p = self.now.pair in (result ≡ rows_of (levels p (pairs_in p goals.now))) × AreRanks p (pairs_in p goals.now) part.new }
    {
        let nc = self.pair.concrete.states;
        let na = self.pair.abstraction.states;
        let y = self.levels(goals, part);
        rows::write_entry(nc, na, covered, &y, machine::BLANK, part);
        y
    }

    // The pairs of section j that are not blank. A table is one flat list, as document 01 has it, and its sections are taken by their numbers: here, in
    // `renew`, in `first_table` and in `turn`, where chunks were tried and are no plainer, since it needs the number too.
    fn covered(&self, j: usize, table: &[u16]) -> [u64; 64]
        requires { (j < sets_a self.now.pair) × (table_room ≤ length table.now) }
        ensures { let p = self.now.pair in result ≡ upto_rows (n_c p) (n_a p) (part_of p table.now j) (blank - 1) }
    {
        let nc = self.pair.concrete.states;
        let na = self.pair.abstraction.states;
        let pairs = nc * na;
        let from = j * pairs;
        let to = from + pairs;
        rows::upto(nc, na, &table[from..to], machine::BLANK - 1)
    }

    // Makes section j anew from the table; whether the set of its pairs has changed.
    fn renew(&self, j: usize, table: &mut [u16]) -> bool
        requires { Renewable self.now.pair j table.old }
        ensures { Renewed self.now.pair j table.old result table.new }
    {
        let nc = self.pair.concrete.states;
        let na = self.pair.abstraction.states;
        let next = machine::next_section(self.pair.abstraction.sets, j);
        let ahead = self.covered(next, table);
        let old = self.covered(j, table);
        let g = self.goals(&ahead, j);
        let pairs = nc * na;
        let from = j * pairs;
        let to = from + pairs;
        let y = self.section(&g, &old, &mut table[from..to]);
        !rows::same_rows(nc, &old, &y)
    }
}

// ---- The table

impl Game {
    // The first entries of each section.
    fn first_table(&self, table: &mut [u16])
        requires { table_room ≤ length table.old }
        ensures { let p = self.now.pair in Begun (pairs p) (n_a p) self.now.matched table.old (sets_a p) table.new }
    {
        let n = self.pair.abstraction.sets;
        let pairs = self.pair.concrete.states * self.pair.abstraction.states;
        for j in 0..n {
            let from = j * pairs;
            let to = from + pairs;
            self.first_entries(&mut table[from..to]);
        }
    }

    // Sweeps from the last section to the first, in which a section is made anew while the set of the next one has changed since it was made:
    // bit i of `due` stands for section n - 1 - i, so that the section before it, whose goals look at it, is bit i + 1, or bit 0 for the first.
    fn sweeps(&self, table: &mut [u16])
        requires { let p = self.now.pair in Sweeping p table.old (full_mask (sets_a p)) table.old }
        ensures { let p = self.now.pair in table.new ≡ solver_table p ++ drop (length (solver_table p)) table.old }
    {
        let n = self.pair.abstraction.sets;
        let mut due = mask::full(n);
        while due != 0 {
            let i = mask::lowest(due);
            let j = n - 1 - i;
            due = mask::rest(due);
            if self.renew(j, table) {
                due = mask::with(due, machine::next_section(n, i));
            }
        }
    }

    // Writes the ranks.
    fn rank_all(&self, table: &mut [u16])
        requires { table_room ≤ length table.old }
        ensures { let p = self.now.pair in table.new ≡ solver_table p ++ drop (length (solver_table p)) table.old }
    {
        self.first_table(table);
        self.sweeps(table);
    }
}

// All that is tested before anything is written.
fn tests(p: Pair, room: usize) -> Result<(), Refusal>
    ensures { result ≡ solve_validity p room }
{
    if room < machine::TABLE_ROOM {
        return Err(Refusal::ShortBuffer);
    }
    validity::pair_validity(p, Sets::Nonempty)
}

// Writes the ranks of two machines into a lent table of 28,672 entries or more: exactly n x P entries, and none beside a refusal.
pub fn solve(p: Pair, table: &mut [u16]) -> Result<(), Refusal>
    ensures answer { result ≡ solve_validity p (length table.old) }
    ensures content { table.new ≡ solved_table p table.old }
{
    tests(p, table.len())?;
    let formed = Formed { pair: &p };
    let game = Game::new(&formed);
    game.rank_all(table);
    Ok(())
}

// ---- Turns

// The set of section j of a family: 7 x 64 rows, row j x 64 + c, in one flat list, as C lends it; so here and in `put_section`.
fn section_rows(family: &[u64; 448], j: usize) -> [u64; 64]
    requires { j < 7 }
    ensures { result ≡ section_of family.now j }
{
    let mut out = [0u64; 64];
    out.copy_from_slice(&family[j * 64..j * 64 + 64]);
    out
}

// Puts a set into section j.
fn put_section(family: &mut [u64; 448], j: usize, set: &[u64; 64])
    requires { j < 7 }
    ensures { family.new ≡ put_section family.old j set.now }
{
    family[j * 64..j * 64 + 64].copy_from_slice(set);
}

impl Game {
    // Makes the ranks of a section from its goals, with no entries from before; gives its levels.
    fn afresh(&self, goals: &[u64; 64], part: &mut [u16]) -> [u64; 64]
        requires { Holds self.now.pair goals.now × (length part.old ≡ pairs self.now.pair) }
        ensures { let p = self.now.pair in (result ≡ rows_of (levels p (pairs_in p goals.now))) × AreRanks p (pairs_in p goals.now) part.new }
    {
        self.first_entries(part);
        self.section(goals, &self.matched, part)
    }

    // Section j of a turn: its set afresh from the family, put beside the sections that are made already; and its ranks over the family.
    fn turn_section(&self, family: &[u64; 448], made: &mut [u64; 448], j: usize, part: &mut [u16])
        requires { (j < sets_a self.now.pair) × (length part.old ≡ pairs self.now.pair) }
        ensures { let p = self.now.pair in (made.new ≡ put_section made.old j (rows_of (levels p (goals p (family_in p family.now) j)))) × AreRanks p (goals p (family_in p family.now) j) part.new }
    {
        let n = self.pair.abstraction.sets;
        let rows = section_rows(family, machine::next_section(n, j));
        // of the rows only matched pairs count
        let next = rows::join_rows(&self.matched, &rows, &rows);
        let g = self.goals(&next, j);
        let set = self.afresh(&g, part);
        put_section(made, j, &set);
    }

    // A turn: every section's set afresh from a family of any content, and the ranks over the family: exactly n x P entries.
    fn turn(&self, family: &[u64; 448], table: &mut [u16]) -> [u64; 448]
        requires { table_room ≤ length table.old }
        ensures { let p = self.now.pair in (result ≡ turn_rows p family.now) × (table.new ≡ rank_table p (family_in p family.now) ++ drop (length (rank_table p (family_in p family.now))) table.old) }
    {
        let n = self.pair.abstraction.sets;
        let pairs = self.pair.concrete.states * self.pair.abstraction.states;
        let mut out = [0u64; 448];
        for j in 0..n {
            let from = j * pairs;
            let to = from + pairs;
            self.turn_section(family, &mut out, j, &mut table[from..to]);
        }
        out
    }
}

// Makes of a family of any rows the family of the turn after it, and the ranks over it in a lent table of 28,672 entries or more, exactly n x P of
// them. Beside a refusal both stay as they were.
pub fn turn_family(p: Pair, family: &mut [u64; 448], table: &mut [u16]) -> Result<(), Refusal>
    ensures answer { result ≡ solve_validity p (length table.old) }
    ensures family { family.new ≡ turned_family p family.old (length table.old) }
    ensures content { table.new ≡ turned_table p family.old table.old }
{
    tests(p, table.len())?;
    let formed = Formed { pair: &p };
    let game = Game::new(&formed);
    *family = game.turn(family, table);
    Ok(())
}
