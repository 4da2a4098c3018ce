// The lines that the programs write: document 01, "Console and program".
#![tactic(auto)]

ghost use Rattle.std.specs.Prelude.{◌≡◌, ◌≤◌, [], ◌∷◌, ◌++◌, take};
ghost use Rattle.text.specs.Decimal.{decimal};
ghost use Rattle.report.specs.Text.{no_table_text, numbers_line, verdict_line, told_line, shelf_line};
ghost use Rattle.report.specs.Answers.{line_of};

use arrayvec::ArrayVec;
use machine::{Numbered, Verdict};
use text::{append, append_byte, append_number};

// A line of text with its line feed: the first `length` bytes of `text`, and zeros after them. Its words are put one behind the other: `write!` promises
// what it writes only where it gives Ok, and never that it does, so that the proof of its `unwrap` does not close (tried on digits).
#[derive(Clone, Copy)]
pub struct Line {
    pub text: [u8; 128],
    pub length: usize,
}

// A line that is being put together.
type Growing = ArrayVec<u8, 128>;

// The line whose text was put together.
pub fn line_of(grown: &ArrayVec<u8, 128>) -> Line
    ensures value { result ≡ line_of grown.now.items }
    ensures room { result.length ≤ 128 }
{
    let mut text = [0u8; 128];
    let length = grown.len();
    text[..length].copy_from_slice(grown);
    Line { text, length }
}

// Puts a number and one byte more behind the line so far, as much of them as there is room for.
fn append_field(line: &mut Growing, n: usize, after: u8)
    ensures { line.new.items ≡ take 128 (line.old.items ++ (decimal n ++ (after ∷ []))) }
{
    append_number(line, n);
    append_byte(line, after);
}

// The line of a number and a spot's three.
fn numbers_line(four: [u64; 4]) -> Line
    ensures value { result ≡ line_of (numbers_line four) }
    ensures text { take result.length result.text ≡ numbers_line four }
    ensures room { result.length ≤ 128 }
{
    let mut line = Growing::new();
    append(&mut line, b"refused ");
    append_field(&mut line, four[0] as usize, b' ');
    append_field(&mut line, four[1] as usize, b' ');
    append_field(&mut line, four[2] as usize, b' ');
    append_field(&mut line, four[3] as usize, b'\n');
    line_of(&line)
}

// The line of a refusal, or of any four numbers that are told as one.
pub fn refusal_line<R: Numbered>(r: R) -> Line
    ensures value { result ≡ line_of (numbers_line (R.four r)) }
    ensures text { take result.length result.text ≡ numbers_line (R.four r) }
    ensures room { result.length ≤ 128 }
{
    numbers_line(r.four())
}

// The line of what the check says.
fn checked_line(verdict: Verdict) -> Growing
    ensures { result.items ≡ verdict_line verdict }
{
    let mut line = Growing::new();
    match verdict {
        Verdict::Carried { covered } => {
            append(&mut line, b"carried ");
            append_field(&mut line, covered, b'\n');
        }
        Verdict::NotCarried { lacking, covered } => {
            append(&mut line, b"not carried ");
            append_field(&mut line, lacking, b' ');
            append_field(&mut line, covered, b'\n');
        }
    }
    line
}

// The line of a file without a table.
fn bare_line() -> Growing
    ensures { result.items ≡ no_table_text }
{
    let mut line = Growing::new();
    append(&mut line, b"no table\n");
    line
}

// The line of what is said of a file, with a refusal or any four numbers that are told as one.
pub fn verdict_line<R: Numbered>(said: Result<Option<Verdict>, R>) -> Line
    ensures value { result ≡ line_of (told_line R.four said) }
    ensures text { take result.length result.text ≡ told_line R.four said }
    ensures room { result.length ≤ 128 }
{
    match said {
        Ok(given) => match given {
            Some(verdict) => line_of(&checked_line(verdict)),
            None => line_of(&bare_line()),
        },
        Err(refusal) => refusal_line(refusal),
    }
}

// The line of the file whose bytes are the input, or the first 59,904 bytes of longer input.
pub fn shelf_line(bytes: &[u8]) -> Line
    ensures value { result ≡ line_of (shelf_line bytes.now) }
    ensures text { take result.length result.text ≡ shelf_line bytes.now }
    ensures room { result.length ≤ 128 }
{
    let end = bytes.len().min(codec::INPUT_ROOM);
    verdict_line(verdict::file_verdict(&bytes[..end]))
}
