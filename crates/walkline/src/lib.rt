// The lines of a walk: document 02, No. 9. Their words are put one behind the other, for the reason that `report::Line` gives.
#![tactic(auto)]

ghost use Rattle.std.specs.Prelude.{◌≡◌};
ghost use Rattle.walkline.specs.Lines.{reason_outcome, numbered_line, walk_line, usage_text};

use arrayvec::ArrayVec;
use chain::{Reason, Said};
use machine::{Refusal, Verdict};
use text::{append, append_byte, append_number};

// A line of text with its line feed.
pub type Line = ArrayVec<u8, 128>;

// The reason of an end, as what is said of one file.
#[tactic(auto, unfolding(crate::specs::Lines::reason_outcome))]
fn reason_outcome(reason: Reason) -> Result<Option<Verdict>, Refusal>
    ensures { result ≡ reason_outcome reason }
{
    match reason {
        Reason::NotCarried { lacking, covered } => {
            Ok(Some(Verdict::NotCarried { lacking, covered }))
        }
        Reason::NoTable => Ok(None),
        Reason::Refused { refusal } => Err(refusal),
    }
}

// A file's number, and the line of what is said of it.
fn numbered_line(file: usize, said: Result<Option<Verdict>, Refusal>) -> Line
    ensures { result.items ≡ numbered_line file said }
{
    let told = report::verdict_line(said);
    let words = told.text;
    let mut line = Line::new();
    append_number(&mut line, file);
    append_byte(&mut line, b' ');
    append(&mut line, &words[..told.length]);
    line
}

// The line of what is said of a file, after which the walk is at this place.
#[tactic(auto, unfolding(crate::specs::Lines::walk_line))]
pub fn walk_line(place: usize, said: Said) -> Line
    ensures { result.items ≡ walk_line place said }
{
    match said {
        Said::Carried { covered } => numbered_line(place, Ok(Some(Verdict::Carried { covered }))),
        Said::Ended { end } => numbered_line(end.file, reason_outcome(end.reason)),
    }
}

// How to call the program.
pub fn usage_line() -> Line
    ensures { result.items ≡ usage_text }
{
    let mut line = Line::new();
    append(&mut line, b"usage: walk first.dom second.dom ..\n");
    line
}
