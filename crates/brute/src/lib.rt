// A brute-force version of solver, solver by turns, check and player, for tests: plain loops over all states, no walks of masks, no rows of masks but
// those of the families that it is handed. It shares machines and pairs, refusals and what check and player say, that a pair is well formed, the room and
// the blank entry of a table, when observations are the same, the order of sections, the meaning of a bit and the full mask with the product, and nothing else.
// That a section, state, entry, round or pair's number is in range, or that a lent table has its room, is asked beside each such number or slice: numbers
// come from loops over counts that are no constants, and no struct holds a slice between two writes. So machines with a family or table that is
// written, section and states, a number with its greatest digit, the present state with its moves, and `ranks` with i come one by one; a count comes
// beside a list, as the list may be shorter and then has 0 past its end.
#![tactic(auto)]

mod families;
mod lassos;
mod lifting;
mod lines;
mod lists;
mod machines;
mod numbers;
mod ranking;
mod runs;

pub use families::{holds_pairs, numbered_family, put_family};
pub use lassos::{Lasso, is_play, same_until};
pub use lifting::lift;
pub use lines::{plain_verdict, value_at};
pub use machines::{nonempty_validity, validity};
pub use numbers::{
    Shape, digit, entry_of, numbered_machine, numbered_pair, put_entries, put_states,
};
pub use ranking::{Compared, is_ranked};
pub use runs::{is_run, plain_play};
