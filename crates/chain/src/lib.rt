// A chain of files, each with the score before it as its rig, walked file by file: document 02, No. 9. Nothing is kept between two files but the walk.
#![tactic(auto)]

ghost use Rattle.std.specs.Prelude.{◌≡◌};
ghost use Rattle.chain.specs.Walking.{begun, follows, judged, ends, step};

use machine::{Machine, Pair, Refusal, Verdict};

// The most files that a walk takes.
pub const MOST_FILES: usize = 16;

// Why a walk ended.
#[derive(Clone, Copy, Debug, PartialEq, Eq)]
pub enum Reason {
    NotCarried { lacking: usize, covered: usize },
    NoTable,
    Refused { refusal: Refusal },
}

// With which file a walk ended, counted from 1, and why.
#[derive(Clone, Copy, Debug, PartialEq, Eq)]
pub struct End {
    pub file: usize,
    pub reason: Reason,
}

// What is said of a file of a walk.
#[derive(Clone, Copy, Debug, PartialEq, Eq)]
pub enum Said {
    // how many entries are not blank
    Carried { covered: usize },
    // the end of the walk, with this file or with one before it
    Ended { end: End },
}

// A walk between two files: the abstract machine (document 02: last score machine) and the hidden mask of the last file that was Carried, how many files
// were (the place in the walk), and how the walk ended, if it has.
#[derive(Clone, Copy)]
pub struct Walk {
    pub last: Machine,
    pub hidden: u8,
    pub place: usize,
    pub ended: Option<End>,
}

impl Walk {
    // A walk before its first file.
    pub fn begin() -> Walk
        ensures { result ≡ begun }
    {
        Walk {
            last: codec::reader::zero_machine(),
            hidden: 0,
            place: 0,
            ended: None,
        }
    }

    // Whether these machines may come next: the first have nothing before them.
    fn follows(&self, p: &Pair) -> bool
        ensures { result ≡ follows self.now p.now }
    {
        self.place == 0 || (p.concrete == self.last && p.hidden == self.hidden)
    }

    // The machines of the next file and what is said of them, or where the file was stopped.
    // Each caller of the reader lends a table of its own and passes a refusal on directly: document 01 names this form.
    fn judged(&self, bytes: &[u8]) -> Result<(Pair, Option<Verdict>), Refusal>
        ensures { result ≡ judged self.now bytes.now }
    {
        let mut table = [0u16; machine::TABLE_ROOM];
        let show = codec::reader::read_file(bytes, &mut table);
        let has_table = show.reading?;
        let follows = self.follows(&show.pair);
        if !follows {
            return Err(Refusal::UnlikeLast);
        }
        let said = verdict::table_verdict(show.pair, has_table, &table)?;
        Ok((show.pair, said))
    }

    // The walk that ends with this file.
    fn ends(self, file: usize, reason: Reason) -> (Walk, Said)
        ensures { result ≡ ends self file reason }
    {
        let end = End { file, reason };
        (
            Walk {
                ended: Some(end),
                ..self
            },
            Said::Ended { end },
        )
    }

    // Takes the next file, and gives the walk back with what is said of the file. A walk that has ended says so again and looks at nothing.
    pub fn step(self, bytes: &[u8]) -> (Walk, Said)
        ensures { result ≡ step self bytes.now }
    {
        if let Some(end) = self.ended {
            return (self, Said::Ended { end });
        }
        if self.place >= MOST_FILES {
            return self.ends(
                MOST_FILES + 1,
                Reason::Refused {
                    refusal: Refusal::TooManyFiles,
                },
            );
        }
        let file = self.place + 1;
        match self.judged(bytes) {
            Err(refusal) => self.ends(file, Reason::Refused { refusal }),
            Ok((_, None)) => self.ends(file, Reason::NoTable),
            Ok((_, Some(Verdict::NotCarried { lacking, covered }))) => {
                self.ends(file, Reason::NotCarried { lacking, covered })
            }
            Ok((pair, Some(Verdict::Carried { covered }))) => (
                Walk {
                    last: pair.abstraction,
                    hidden: pair.hidden,
                    place: file,
                    ended: None,
                },
                Said::Carried { covered },
            ),
        }
    }
}
