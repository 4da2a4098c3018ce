// Reading a file, and its length from the first block alone. A machine's counts are asked for where they are used, as they are bytes of a header here,
// before there is a pair; so is the room of the lent table, which is tested once, in `read_file`.
ghost use Rattle.std.specs.Prelude.{true, ◌++◌, ◌≡◌, ◌+◌, ◌*◌, ◌/◌, ◌^◌, ◌≤◌, ◌<◌, length, get_or, drop, replicate, eqb, Err, Ok};
ghost use Rattle.mask.specs.Logic.{and};
ghost use Rattle.mask.specs.Bounded.{every};
ghost use Rattle.machine.specs.Refusals.{valid, and_then, buffer_after};
ghost use Rattle.machine.specs.WellFormed.{counts_ok, pair_validity};
ghost use Rattle.machine.specs.Table.{table_room};
ghost use Rattle.codec.specs.Format.{letters, number_at, payload_length};
ghost use Rattle.codec.specs.Reader.{check_holds, number_found, damaged, block_validity, payload_byte, header_byte, note_of, header_holds, header_validity, first_validity, payload_demanded, demanded, later_blocks, padding_holds, blocks_validity, machine_at, pair_of, entries_of, taken, read_answer, table_of, read_table, zero_machine, zero_pair, size_of};
ghost use Rattle.codec.specs.Answers.{read_of, pair_given};
ghost use Rattle.codec.specs.Loading.{counts_of, Loaded};
ghost use Rattle.mask.specs.Tables.{table, front};

use super::{PAYLOAD_ROOM, Show, Stored, check_of};
use machine::{Machine, Pair, Refusal};
use validity::Sets;

// ---- Blocks

// A block that is there.
#[derive(Clone, Copy)]
struct Block<'a> {
    bytes: &'a [u8],
    i: usize,
    ghost there: { 512 * i + 512 ≤ length bytes.now },
}

impl<'a> Block<'a> {
    // Whether its check holds.
    fn check_holds(&self) -> bool
        ensures { result ≡ check_holds self.now.bytes.now self.now.i }
    {
        let at = 512 * self.i;
        u16::read(&self.bytes[at + 510..at + 512]) == check_of(&self.bytes[at..at + 510])
    }

    // The number found in it.
    fn number_found(&self) -> usize
        ensures { result ≡ number_found self.now.bytes.now self.now.i }
    {
        let at = 512 * self.i;
        u16::read(&self.bytes[at..at + 2]) as usize
    }

    // Its check, and right after it its number.
    fn validity(&self) -> Result<(), Refusal>
        ensures { result ≡ block_validity self.now.bytes.now self.now.i }
    {
        if !self.check_holds() {
            return Err(damaged(self.i));
        }
        let number = self.number_found();
        if number != self.i {
            return Err(Refusal::Misplaced {
                block: self.i,
                found: number,
            });
        }
        Ok(())
    }
}

// The refusal for a wrong check of block i: 3 for block 0, 7 for a later one.
fn damaged(i: usize) -> Refusal
    ensures { result ≡ damaged i }
{
    if i == 0 {
        Refusal::BadFirstBlock
    } else {
        Refusal::BadBlock { block: i }
    }
}

// ---- The first block

// The counts of a header: the states of the concrete and of the abstract machine, then their sets.
#[derive(Clone, Copy)]
struct Counts {
    c: u8,
    a: u8,
    m: u8,
    n: u8,
}

impl Counts {
    // Whether both machines' are in their ranges.
    fn hold(self) -> bool
        ensures { result ≡ and (counts_ok 8 self.c self.m) (counts_ok 7 self.a self.n) }
    {
        validity::counts_ok(8, self.c as usize, self.m as usize)
            && validity::counts_ok(7, self.a as usize, self.n as usize)
    }

    // How many entries the table has.
    fn entries(self) -> usize
        ensures value { result ≡ self.n * (self.c * self.a) }
        ensures small { result < 2 ^ 30 }
    {
        self.n as usize * (self.c as usize * self.a as usize)
    }

    // The payload's length, with the note whether a table follows.
    fn payload_length(self, note: bool) -> usize
        ensures value { result ≡ payload_length self.c self.a self.m self.n note }
        ensures small { result < 2 ^ 32 }
    {
        let states = self.c as usize + self.a as usize;
        let sets = self.m as usize + self.n as usize;
        let machines = 32 + 9 * states + 8 * sets;
        if note {
            machines + 2 * self.entries()
        } else {
            machines
        }
    }
}

// A file whose first block is there.
#[derive(Clone, Copy)]
struct Head<'a> {
    bytes: &'a [u8],
    ghost there: { 512 ≤ length bytes.now },
}

impl<'a> Head<'a> {
    // Byte k of the header.
    fn byte(&self, k: usize) -> u8
        requires { k < 16 }
        ensures { result ≡ header_byte self.now.bytes.now k }
    {
        self.bytes[2 + k]
    }

    // Whether the file begins with the letters.
    fn has_letters(&self) -> bool
        ensures { result ≡ every 4 (λ i. eqb (header_byte self.now.bytes.now i) (get_or letters i 0)) }
    {
        self.bytes[2..6] == b"DOM1"[..]
    }

    // The note whether a table follows.
    fn note(&self) -> bool
        ensures { result ≡ note_of self.now.bytes.now }
    {
        self.byte(9) == 1
    }

    // The counts of both machines.
    fn counts(&self) -> Counts
        ensures { result ≡ counts_of self.now.bytes.now }
    {
        Counts {
            c: self.byte(4),
            a: self.byte(5),
            m: self.byte(6),
            n: self.byte(7),
        }
    }

    // The payload's length that the header demands.
    fn payload_demanded(&self) -> usize
        ensures value { result ≡ payload_demanded self.now.bytes.now }
        ensures small { result < 2 ^ 32 }
    {
        self.counts().payload_length(self.note())
    }

    // Whether the header has its letters, six zeros, and a table byte of 0 or 1.
    fn holds(&self) -> bool
        ensures { result ≡ header_holds self.now.bytes.now }
    {
        self.has_letters() && self.byte(9) <= 1 && zeros(&self.bytes[12..18])
    }

    // Refusals 4 and 5.
    fn validity(&self) -> Result<(), Refusal>
        ensures { result ≡ header_validity self.now.bytes.now }
    {
        if !self.holds() {
            return Err(Refusal::BadHeader);
        }
        if !self.counts().hold() {
            return Err(Refusal::BadCounts);
        }
        Ok(())
    }
}

// Whether all bytes are zero.
fn zeros(bytes: &[u8]) -> bool
    ensures { result ≡ every (length bytes.now) (λ i. eqb (get_or bytes.now i 0) 0) }
{
    bytes.iter().all(|b| *b == 0)
}

// Refusals 2, 3, 19 of block 0, 4 and 5, which rest on the length and the first block.
fn first_validity(bytes: &[u8]) -> Result<(), Refusal>
    ensures { result ≡ first_validity bytes.now }
{
    if bytes.len() == 0 || bytes.len() % 512 != 0 {
        return Err(Refusal::BadLength);
    }
    let first = Block { bytes, i: 0 };
    first.validity()?;
    let head = Head { bytes };
    head.validity()
}

// A file's length in bytes, by its first block; refusals 2 to 5, and 19 of block 0.
pub fn file_size(bytes: &[u8]) -> Result<usize, Refusal>
    ensures { result ≡ size_of bytes.now }
{
    first_validity(bytes)?;
    let head = Head { bytes };
    let blocks = (head.payload_demanded() + 507) / 508;
    Ok(512 * blocks)
}

// ---- The whole file

// Refusals 7 and 19 of the blocks after block 0, the lowest first.
fn later_blocks(bytes: &[u8]) -> Result<(), Refusal>
    ensures { result ≡ later_blocks bytes.now }
{
    for i in 1..bytes.len() / 512 {
        let block = Block { bytes, i };
        block.validity()?;
    }
    Ok(())
}

// Whether the padding is zero. A file of the length that its counts demand has all of it in its last block.
fn padding_holds(bytes: &[u8]) -> bool
    requires { length bytes.now ≡ demanded bytes.now }
    ensures { result ≡ padding_holds bytes.now }
{
    let head = Head { bytes };
    let len = head.payload_demanded();
    let n = bytes.len() / 512;
    zeros(&bytes[len + 4 * n - 2..512 * n - 2])
}

// Refusals 7 and 19 of the later blocks, and 8.
fn later_validity(bytes: &[u8]) -> Result<(), Refusal>
    requires { length bytes.now ≡ demanded bytes.now }
    ensures { result ≡ blocks_validity bytes.now }
{
    later_blocks(bytes)?;
    if !padding_holds(bytes) {
        return Err(Refusal::BadPadding);
    }
    Ok(())
}

// Refusals 2 to 8, and 19: up to 6, with 19 of block 0, by the first block and the length that it demands.
fn file_validity(bytes: &[u8]) -> Result<(), Refusal>
    ensures { result ≡ and_then (first_validity bytes.now) (blocks_validity bytes.now) }
{
    let size = file_size(bytes)?;
    if bytes.len() != size {
        return Err(Refusal::WrongLength);
    }
    later_validity(bytes)
}

// ---- The payload

// Joins the payloads of all blocks, at the front of a buffer. (Tried: `chunks_exact_mut` of the payload zipped in. It is as fast, but after the loop
// a proof knows only how long the payload is.)
fn join(bytes: &[u8], payload: &mut [u8])
    requires { 508 * (length bytes.now / 512) ≤ length payload.old }
    ensures { payload.new ≡ front (508 * (length bytes.now / 512)) (payload_byte bytes.now) payload.old }
{
    for (i, block) in bytes.chunks_exact(512).enumerate() {
        let to = 508 * i;
        payload[to..to + 508].copy_from_slice(&block[2..510]);
    }
}

// Fills a buffer with the numbers at the front of some bytes.
fn read_numbers<T: Stored>(bytes: &[u8], out: &mut [T])
    requires { T.BYTES * length out.old ≤ length bytes.now }
    ensures { out.new ≡ table (length out.old) (λ k. T.of (number_at T.BYTES bytes.now (T.BYTES * k))) }
{
    for (k, number) in out.iter_mut().enumerate() {
        let at = T::BYTES * k;
        *number = T::read(&bytes[at..at + T::BYTES]);
    }
}

// The machine of n states and some sets at a place: the machines follow each other in one payload, whose counts tell where each begins.
fn machine_at(q: &[u8], at: usize, n: usize, sets: usize) -> Machine
    requires n_bound { (n ≤ 64) × (sets ≤ 8) }
    requires sets_in_bounds { at + (9 * n + 8 * sets + 8) ≤ length q.now }
    ensures { result ≡ machine_at q.now at n sets }
{
    let mut observations = [0u8; 64];
    let mut successors = [0u64; 64];
    let mut fairness = [0u64; 8];
    observations[..n].copy_from_slice(&q[at..at + n]);
    let successors_at = at + n + 8;
    let sets_at = successors_at + 8 * n;
    read_numbers(&q[successors_at..sets_at], &mut successors[..n]);
    read_numbers(&q[sets_at..sets_at + 8 * sets], &mut fairness[..sets]);
    Machine {
        states: n,
        sets,
        start: u64::read(&q[at + n..at + n + 8]),
        observations,
        successors,
        fairness,
    }
}

// The machines and the hidden mask of a file whose payload is loaded.
fn pair_at(head: &Head, q: &[u8]) -> Pair
    requires { Loaded head.now.bytes.now q.now }
    ensures { result ≡ pair_of head.now.bytes.now }
{
    let counts = head.counts();
    let c = counts.c as usize;
    let m = counts.m as usize;
    Pair {
        concrete: machine_at(q, 16, c, m),
        abstraction: machine_at(q, 24 + 9 * c + 8 * m, counts.a as usize, counts.n as usize),
        hidden: head.byte(8),
    }
}

// Writes the table of a file whose payload is loaded to the front of a lent table.
fn table_at(head: &Head, q: &[u8], table: &mut [u16])
    requires loaded { Loaded head.now.bytes.now q.now }
    requires note { note_of head.now.bytes.now ≡ true }
    requires table_room_in_bounds { table_room ≤ length table.old }
    ensures { table.new ≡ entries_of head.now.bytes.now ++ drop (length (entries_of head.now.bytes.now)) table.old }
{
    let counts = head.counts();
    let at = counts.payload_length(false);
    let entries = counts.entries();
    read_numbers(&q[at..at + 2 * entries], &mut table[..entries]);
}

// ---- The reader

// A machine of zeros, field by field: what a derived Default says of arrays of 64 was not proved (tried).
pub fn zero_machine() -> Machine
    ensures { result ≡ zero_machine }
{
    Machine {
        states: 0,
        sets: 0,
        start: 0,
        observations: [0; 64],
        successors: [0; 64],
        fairness: [0; 8],
    }
}

// The answer beside a refusal: document 01 gives the reader's answer this form, with machines of zeros, so that a refusal is put into it here.
fn refused_show(r: Refusal) -> Show
    ensures answer { read_of result ≡ Err r }
    ensures machines { result.pair ≡ zero_pair }
{
    Show {
        pair: Pair {
            concrete: zero_machine(),
            abstraction: zero_machine(),
            hidden: 0,
        },
        reading: Err(r),
    }
}

// The show of a file whose blocks hold, with its table in the lent one: refusals 9 to 11, and what is taken. A refusal goes by a match and not by
// `?`: it is handed over in a Show, as document 01 has it.
fn take_show(bytes: &[u8], table: &mut [u16]) -> Show
    requires bytes_value { and_then (first_validity bytes.now) (blocks_validity bytes.now) ≡ valid }
    requires table_room_in_bounds { table_room ≤ length table.old }
    ensures answer { read_of result ≡ and_then (pair_validity (pair_of bytes.now)) (Ok (taken (pair_of bytes.now) (note_of bytes.now))) }
    ensures machines { result.pair ≡ pair_given (and_then (pair_validity (pair_of bytes.now)) (Ok (taken (pair_of bytes.now) (note_of bytes.now)))) }
    ensures content { table.new ≡ buffer_after (pair_validity (pair_of bytes.now)) (table_of bytes.now) table.old }
{
    let mut payload = [0u8; PAYLOAD_ROOM];
    join(bytes, &mut payload);
    let head = Head { bytes };
    let pair = pair_at(&head, &payload);
    match validity::pair_validity(pair, Sets::Any) {
        Err(refusal) => refused_show(refusal),
        Ok(()) => {
            let note = head.note();
            if note {
                table_at(&head, &payload, table);
            }
            Show {
                pair,
                reading: Ok(note),
            }
        }
    }
}

// Reads a file: its machines with their hidden mask, the note whether a table came, and the table into a lent one. A refusal goes by a match, since
// document 01 wants machines of zeros beside it.
pub fn read_file(bytes: &[u8], table: &mut [u16]) -> Show
    ensures answer { read_of result ≡ read_answer bytes.now table.old }
    ensures machines { result.pair ≡ pair_given (read_answer bytes.now table.old) }
    ensures content { table.new ≡ read_table bytes.now table.old }
{
    if table.len() < machine::TABLE_ROOM {
        return refused_show(Refusal::ShortBuffer);
    }
    match file_validity(bytes) {
        Err(refusal) => refused_show(refusal),
        Ok(()) => take_show(bytes, table),
    }
}
