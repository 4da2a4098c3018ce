// Solver, solver by turns, check and player beside their brute-force versions, on series of small pairs. What is compared is counted, and so is what differs.
// Machines, table and family come one by one, and so do section and states, as the calls that are compared take them. Tables have the largest size, so that
// n, how many entries count, stands beside them; it is multiplied out once.
#![tactic(auto)]

mod lassos;
mod pairs;
mod tables;
mod tally;
mod turns;

pub use pairs::{Numbers, Series, Trial, compare, compare_pair};
pub use tables::Tables;
pub use tally::Tally;
