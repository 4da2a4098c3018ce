// The lines of the solver by turns: document 02, No. 6, for the eye. Their words are put one behind the other, for the reason that `report::Line` gives.
// Machines and family come apart, as C lends them, and a section by its number, from a loop.
#![tactic(auto)]

ghost use Rattle.std.specs.Prelude.{◌∷◌, ◌≡◌, ◌++◌, ◌<◌, ◌≤◌, take};
ghost use Rattle.text.specs.Decimal.{decimal};
ghost use Rattle.report.specs.Answers.{line_of};
ghost use Rattle.turnline.specs.Lines.{rows_count, turn_line, finished_line};

use arrayvec::ArrayVec;
use machine::Pair;
use report::Line;
use text::{append, append_byte, append_number};

// A line that is being put together.
type Growing = ArrayVec<u8, 128>;

// How many bits of a section's rows are matched pairs: of section j, counted from 0.
fn section_count(matched: &[u64; 64], family: &[u64; 448], j: usize) -> usize
    requires { j < 7 }
    ensures { result ≡ rows_count matched.now family.now j }
{
    let mut n = 0;
    // c is the row's place in two arrays: `zip` over a part of one of them is no plainer
    for c in 0..64 {
        n += mask::size(family[j * 64 + c] & matched[c]);
    }
    n
}

// Puts a blank and a number behind the line so far, as much of them as there is room for: two calls of `text`, as `append_numbered` of `hanoi` has.
fn append_count(line: &mut Growing, n: usize)
    ensures { line.new.items ≡ take 128 (line.old.items ++ (32 ∷ decimal n)) }
{
    append_byte(line, b' ');
    append_number(line, n);
}

// The line of turn t, which left this family: how many pairs are still in, section by section.
pub fn turn_line(p: Pair, t: usize, family: [u64; 448]) -> Line
    ensures value { result ≡ line_of (turn_line p t family) }
    ensures text { take result.length result.text ≡ turn_line p t family }
    ensures room { result.length ≤ 128 }
{
    let abstraction = p.abstraction;
    // a family has rows for 7 sections
    let n = abstraction.sets.min(7);
    let matched = machine::matched_masks(p);
    let mut line = Growing::new();
    append(&mut line, b"turn ");
    append_number(&mut line, t);
    for j in 0..n {
        append_count(&mut line, section_count(&matched, &family, j));
    }
    append_byte(&mut line, b'\n');
    report::line_of(&line)
}

// The last line, where turn t finished.
pub fn finished_line(t: usize) -> Line
    ensures value { result ≡ line_of (finished_line t) }
    ensures text { take result.length result.text ≡ finished_line t }
    ensures room { result.length ≤ 128 }
{
    let mut line = Growing::new();
    append(&mut line, b"finished ");
    append_number(&mut line, t);
    append_byte(&mut line, b'\n');
    report::line_of(&line)
}
