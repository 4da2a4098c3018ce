// A lasso read from text, and the line that `play` writes.
#![tactic(auto)]

ghost use Rattle.std.specs.Prelude.{true, false, [], ◌++◌, ◌≡◌, suc, ◌+◌, ◌≤◌, length, get_or, take, drop, MatchOption};
ghost use Rattle.mask.specs.Bounded.{every};
ghost use Rattle.text.specs.Decimal.{is_digit};
ghost use Rattle.machine.specs.Player.{run_room};
ghost use Rattle.machine.specs.declared.Run.{Run};
ghost use Rattle.playline.specs.Lasso.{grown, is_plain, numbers_in, stroke_at, readable, states_text};
ghost use Rattle.playline.specs.Line.{line_room, run_line, run_outcome_line, play_line};

use arrayvec::ArrayVec;
use machine::{Refusal, Run};
use text::{append, append_byte, append_number};

// The room that any line has: four bytes for each state of a run, and the words.
pub const LINE_ROOM: usize = 114700;

// The line that `play` writes.
pub type Line = ArrayVec<u8, LINE_ROOM>;

// Numbers that were read: at most 65, one more than a lasso may have.
type Numbers = ArrayVec<u8, 65>;

// ---- Reading a lasso

// The number with one digit more, 255 for any over it. Digit by digit, since `parse` refuses a number over 255 and an empty text, where any text has
// numbers here.
fn grown(n: u8, b: u8) -> u8
    requires { is_digit b ≡ true }
    ensures { result ≡ grown n b }
{
    n.saturating_mul(10).saturating_add(b - b'0')
}

// The numbers that a text writes; those past 65 are left out.
fn numbers_in(text: &[u8]) -> Numbers
    ensures { result.items ≡ numbers_in text.now }
{
    let mut list = Numbers::new();
    // the number that is being read
    let mut begun: Option<u8> = None;
    for b in text {
        if b.is_ascii_digit() {
            begun = Some(grown(begun.unwrap_or(0), *b));
        } else if let Some(n) = begun {
            append_byte(&mut list, n);
            begun = None;
        }
    }
    if let Some(n) = begun {
        append_byte(&mut list, n);
    }
    list
}

// Whether a byte is a digit or a blank.
fn is_plain(b: u8) -> bool
    ensures { result ≡ is_plain b }
{
    b.is_ascii_digit() || b == b' '
}

// Whether each byte of a text is a digit or a blank.
fn all_plain(text: &[u8]) -> bool
    ensures { result ≡ every (length text.now) (λ i. is_plain (get_or text.now i 0)) }
{
    text.iter().all(|b| is_plain(*b))
}

// The text of the stem and that of the loop, which stand before and behind the first stroke; none where the whole is no lasso.
fn parts(text: &[u8]) -> Option<(&[u8], &[u8])>
    ensures { MatchOption result (readable text.now ≡ false) (λ p. (readable text.now ≡ true)
        × (p.0.now ≡ take (stroke_at text.now) text.now) × (p.1.now ≡ drop (suc (stroke_at text.now)) text.now)) }
{
    let stroke = text.iter().position(|b| *b == b'/')?;
    let stem = &text[..stroke];
    let cycle = &text[stroke + 1..];
    if all_plain(stem) && all_plain(cycle) {
        Some((stem, cycle))
    } else {
        None
    }
}

// Whether a text is a lasso: a stem, a stroke and a loop.
pub fn is_lasso(text: &[u8]) -> bool
    ensures { result ≡ readable text.now }
{
    parts(text).is_some()
}

// ---- Writing the line. Words are put one behind the other, for the reason that `report::Line` gives, all in the one line that is lent: a line that is
// handed out takes a place of its own, of its whole room, in each call that it passes.

// Puts the states, a blank before each.
fn append_states(line: &mut Line, states: &[u8])
    ensures { line.new.items ≡ take line_room (line.old.items ++ states_text states.now) }
{
    // there may be no state
    prove!(line.len() <= LINE_ROOM);
    for s in states {
        append_byte(line, b' ');
        append_number(line, *s as usize);
    }
}

// Puts the line of a run with this stem and loop.
fn append_run(line: &mut Line, stem: &[u8], cycle: &[u8])
    ensures { line.new.items ≡ take line_room (line.old.items ++ run_line stem.now cycle.now) }
{
    append(line, b"run");
    append_states(line, stem);
    append(line, b" /");
    append_states(line, cycle);
    append_byte(line, b'\n');
}

// Puts the line of what is said, where the run stands in the buffer that the player was lent; the player tells its lengths.
fn append_outcome(line: &mut Line, said: Result<Option<Run>, Refusal>, run: &[u8])
    requires { (length run.now ≤ run_room) × ((r : Run) → said ≡ Ok (Some r) → r.stem + r.cycle ≤ length run.now) }
    ensures behind { line.new.items ≡ take line_room (line.old.items ++ run_outcome_line said run.now) }
    ensures alone { line.old.items ≡ [] → line.new.items ≡ run_outcome_line said run.now }
{
    match said {
        Ok(given) => match given {
            Some(lengths) => {
                let end = lengths.stem + lengths.cycle;
                append_run(line, &run[..lengths.stem], &run[lengths.stem..end]);
            }
            None => append(line, b"no table\n"),
        },
        Err(refusal) => {
            let told = report::refusal_line(refusal);
            let words = told.text;
            append(line, &words[..told.length]);
        }
    }
}

// Puts the line of a file and of the lasso that the arguments' text writes behind a line; behind an empty one there is room for all of it.
pub fn append_play_line(line: &mut Line, bytes: &[u8], text: &[u8])
    ensures behind { line.new.items ≡ take line_room (line.old.items ++ play_line bytes.now text.now) }
    ensures alone { line.old.items ≡ [] → line.new.items ≡ play_line bytes.now text.now }
{
    match parts(text) {
        Some((stem, cycle)) => {
            let mut run = [0u8; player::RUN_ROOM];
            let said = playback::play_bytes(bytes, &numbers_in(stem), &numbers_in(cycle), &mut run);
            append_outcome(line, said, &run);
        }
        // how to call the program
        None => append(line, b"usage: play 0 1 / 2 3 < show.dom\n"),
    }
}

// The line of a file and of the lasso that the arguments' text writes.
pub fn play_line(bytes: &[u8], text: &[u8]) -> Line
    ensures { result.items ≡ play_line bytes.now text.now }
{
    let mut line = Line::new();
    append_play_line(&mut line, bytes, text);
    line
}
