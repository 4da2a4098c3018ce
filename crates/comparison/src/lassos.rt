// The player beside the rule, on all short lassos: the answers, the run, and whether it is a fair lasso with the same observations, in
// the bits that are not hidden.
ghost use Rattle.std.specs.Prelude.{◌≡◌, ◌+◌, ◌≤◌};
ghost use Rattle.brute.specs.Given.{lent};
ghost use Rattle.comparison.specs.Lassos.{run_fits, lasso_agrees, lasso_tally, numbered_lasso, shape_tally, lassos_tally};

use crate::tally::{Tally, total};
use brute::Lasso;
use machine::{Pair, Refusal, Run};

// Whether the front of a buffer is the rule's run, and with its stem a fair lasso of the abstract machine from a start state, with the
// lasso's observations in the bits that are not hidden.
#[tactic(auto, unfolding(crate::specs::Lassos::run_fits, mask::specs::Logic::and))]
fn run_fits(p: Pair, table: &[u16], lasso: Lasso, buffer: &[u8], run: Run) -> bool
    ensures { result ≡ run_fits p table.now (lent lasso.entry) buffer.now run.stem run.cycle }
{
    if buffer.len() < run.stem || buffer.len() - run.stem < run.cycle {
        return false;
    }
    let n = run.stem + run.cycle;
    let written = Lasso {
        stem: &buffer[..run.stem],
        cycle: &buffer[run.stem..n],
    };
    brute::is_run(p, table, lasso, buffer, n)
        && brute::is_play(p.abstraction, written)
        && brute::same_until(p.hidden, p.concrete, lasso, p.abstraction, written, n)
}

// Whether the player's answer is the rule's, and its run fits.
#[tactic(auto, using(crate::proofs::EqualLaws::runs_told), unfolding(crate::specs::Lassos::lasso_agrees, crate::specs::Lassos::answer_fits, mask::specs::Logic::and))]
fn lasso_agrees(
    p: Pair,
    table: &[u16],
    lasso: Lasso,
    buffer: &[u8],
    answer: Result<Run, Refusal>,
    plain: Result<Run, Refusal>,
) -> bool
    ensures { result ≡ lasso_agrees p table.now (lent lasso.entry) buffer.now answer plain }
{
    answer == plain
        && match answer {
            Ok(run) => run_fits(p, table, lasso, buffer, run),
            Err(_) => true,
        }
}

// One lasso.
#[tactic(auto, unfolding(crate::specs::Lassos::lasso_tally))]
fn compare_lasso(p: Pair, table: &[u16], lasso: Lasso) -> Tally
    ensures { result ≡ lasso_tally p table.now (lent lasso.entry) }
{
    let mut buffer = [0u8; player::RUN_ROOM];
    let answer = player::play(p, table, lasso.stem, lasso.cycle, &mut buffer);
    let plain = brute::plain_play(p, table, lasso);
    Tally::of_lasso(
        answer.is_ok(),
        lasso_agrees(p, table, lasso, &buffer, answer, plain),
    )
}

// How many states stem and loop of a lasso have, and the greatest state that they may have.
#[derive(Clone, Copy)]
struct LassoShape {
    stem: usize,
    cycle: usize,
    top: u8,
}

// Lasso number x of a shape: its states are digits.
#[tactic(auto, unfolding(crate::specs::Lassos::numbered_lasso))]
fn compare_numbered(p: Pair, table: &[u16], shape: LassoShape, x: u64) -> Tally
    requires { shape.stem + shape.cycle ≤ 4 }
    ensures { result ≡ lasso_tally p table.now (numbered_lasso shape.top shape.stem shape.cycle x) }
{
    let mut states = [0u8; 4];
    brute::put_states(x, shape.top, &mut states);
    let lasso = Lasso {
        stem: &states[..shape.stem],
        cycle: &states[shape.stem..shape.stem + shape.cycle],
    };
    compare_lasso(p, table, lasso)
}

// Every lasso of a shape whose stem and loop have up to 2 states each.
fn compare_shape(p: Pair, table: &[u16], shape: LassoShape) -> Tally
    requires { (shape.stem ≤ 2) × (shape.cycle ≤ 2) }
    ensures { result ≡ shape_tally p table.now shape.top shape.stem shape.cycle }
{
    let base = u64::from(shape.top) + 1;
    total(
        base.pow(shape.stem as u32) * base.pow(shape.cycle as u32),
        |x| compare_numbered(p, table, shape, x),
    )
}

// Every lasso with a stem of at most `longest` states, at most 2, and a loop of 0 to 2.
pub fn compare_lassos(p: Pair, table: &[u16], top: u8, longest: usize) -> Tally
    ensures { result ≡ lassos_tally p table.now top longest }
{
    let most = longest.min(2);
    total(3 * (most as u64 + 1), |i| {
        let shape = LassoShape {
            stem: (i / 3) as usize,
            cycle: (i % 3) as usize,
            top,
        };
        compare_shape(p, table, shape)
    })
}
