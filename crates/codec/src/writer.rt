// Writing a file: the payload is put together in an array of its own, then cut into blocks. Each part fills its own part of a buffer.
// The file's buffer is lent, as C lends it, and its length comes back; machines and table come apart, as the reader gives them. What is known of counts
// and of the table's room is said where it is used, since `Formed` holds a pair alone.
ghost use Rattle.std.specs.Prelude.{◌≡◌, ◌++◌, ◌+◌, ◌*◌, ◌/◌, ◌%◌, ◌≤◌, length, get_or, drop};
ghost use Rattle.mask.specs.Tables.{front};
ghost use Rattle.machine.specs.Machines.{n_c, n_a, sets_c, sets_a};
ghost use Rattle.machine.specs.Table.{table_room};
ghost use Rattle.codec.specs.Writer.{file_room, write_answer, write_buffer};
ghost use Rattle.codec.specs.Format.{numbers, header, machine_bytes, payload, payload_most, payload_length, file_length, block_of, block, file_of};

use super::{FILE_ROOM, PAYLOAD_ROOM, Stored, check_of};
use machine::{Formed, Machine, Pair, Refusal};
use validity::Sets;

// ---- Numbers and machines

// Fills a buffer with the bytes of numbers. (Tried: a growing ArrayVec in place of the buffer and its parts. It tests its room for each number, and
// the 28,672 entries of a full-size table took 40 microseconds where this takes 5.)
fn put_numbers<T: Stored>(out: &mut [u8], values: &[T])
    requires { length out.old ≡ T.BYTES * length values.now }
    ensures { out.new ≡ numbers T.BYTES (length values.now) (λ i. T.value (get_or values.now i (T.of 0))) }
{
    for (i, value) in values.iter().enumerate() {
        let at = T::BYTES * i;
        value.write(&mut out[at..at + T::BYTES]);
    }
}

// How many bytes a machine takes.
fn machine_length(m: Machine) -> usize
    requires { (m.states ≤ 64) × (m.sets ≤ 8) }
    ensures { result ≡ 9 * m.states + 8 * m.sets + 8 }
{
    9 * m.states + 8 * m.sets + 8
}

// Fills a buffer with a machine: observations, start mask, successor masks, sets.
fn put_machine(out: &mut [u8], m: Machine)
    requires states_bound { (m.states ≤ 64) × (m.sets ≤ 8) }
    requires out_length { length out.old ≡ 9 * m.states + 8 * m.sets + 8 }
    ensures { out.new ≡ machine_bytes m }
{
    let observations = m.observations;
    let successors = m.successors;
    let fairness = m.fairness;
    let states = m.states;
    let sets = m.sets;
    let successors_at = states + 8;
    let sets_at = successors_at + 8 * states;
    let end = sets_at + 8 * sets;
    out[..states].copy_from_slice(&observations[..states]);
    m.start.write(&mut out[states..successors_at]);
    put_numbers(&mut out[successors_at..sets_at], &successors[..states]);
    put_numbers(&mut out[sets_at..end], &fairness[..sets]);
}

// The header: the letters, the counts, the hidden mask and the note whether a table follows, of which it holds nothing but `with_table`.
fn header(p: Pair, with_table: bool) -> [u8; 16]
    requires { (p.concrete.states ≤ 64) × ((p.concrete.sets ≤ 8) × ((p.abstraction.states ≤ 64) × (p.abstraction.sets ≤ 8))) }
    ensures { result ≡ header p with_table }
{
    [
        b'D',
        b'O',
        b'M',
        b'1',
        p.concrete.states as u8,
        p.abstraction.states as u8,
        p.concrete.sets as u8,
        p.abstraction.sets as u8,
        p.hidden,
        with_table as u8,
        0,
        0,
        0,
        0,
        0,
        0,
    ]
}

// Writes the whole payload from the front, and gives its length. `with_table` and `table` are those of `write_file`.
#[tactic(auto, using(crate::specs::WriterLaws::formed_small))]
fn put_payload(out: &mut [u8], formed: Formed, with_table: bool, table: &[u16]) -> usize
    requires { (table_room ≤ length table.now) × (payload_most ≤ length out.old) }
    ensures length { let p = formed.entry.pair.now in result ≡ payload_length (n_c p) (n_a p) (sets_c p) (sets_a p) with_table }
    ensures bytes { out.new ≡ payload formed.entry.pair.now with_table table.now ++ drop result out.old }
{
    let p = *formed.pair;
    let c = p.concrete;
    let a = p.abstraction;
    let abstraction_at = 16 + machine_length(c);
    let table_at = abstraction_at + machine_length(a);
    out[..16].copy_from_slice(&header(p, with_table));
    put_machine(&mut out[16..abstraction_at], c);
    put_machine(&mut out[abstraction_at..table_at], a);
    if with_table {
        let count = a.sets * (c.states * a.states);
        let end = table_at + 2 * count;
        put_numbers(&mut out[table_at..end], &table[..count]);
        return end;
    }
    table_at
}

// ---- Blocks

// Fills a buffer with block i: its number, its part of the payload, and the check of both.
fn put_block(block: &mut [u8], part: &[u8], i: usize)
    requires { (length block.old ≡ 512) × (length part.now ≡ 508) }
    ensures { block.new ≡ block_of part.now i }
{
    // A file has at most 116 blocks; of a larger number the two low bytes would stand here.
    ((i % 65536) as u16).write(&mut block[..2]);
    block[2..510].copy_from_slice(part);
    let check = check_of(&block[..510]);
    check.write(&mut block[510..512]);
}

// Writes the first `count` blocks of a payload from the front. By number: after a loop over `chunks_exact_mut` a proof knows only how long the
// buffer is.
fn put_blocks(out: &mut [u8], payload: &[u8], count: usize)
    requires { (508 * count ≤ length payload.now) × (512 * count ≤ length out.old) }
    ensures { out.new ≡ front (512 * count) (λ k. get_or (block payload.now (k / 512)) (k % 512) 0) out.old }
{
    for i in 0..count {
        let to = 512 * i;
        let from = 508 * i;
        put_block(&mut out[to..to + 512], &payload[from..from + 508], i);
    }
}

// Writes the file of a well-formed pair, and gives its length. `with_table` and `table` are those of `write_file`.
fn put_file(formed: Formed, with_table: bool, table: &[u16], buffer: &mut [u8]) -> usize
    requires { (table_room ≤ length table.now) × (file_room ≤ length buffer.old) }
    ensures length { let p = formed.entry.pair.now in result ≡ file_length (n_c p) (n_a p) (sets_c p) (sets_a p) with_table }
    ensures bytes { let file = file_of formed.entry.pair.now with_table table.now in buffer.new ≡ file ++ drop (length file) buffer.old }
{
    let mut payload = [0u8; PAYLOAD_ROOM];
    let len = put_payload(&mut payload, formed, with_table, table);
    let blocks = (len + 507) / 508;
    put_blocks(buffer, &payload, blocks);
    512 * blocks
}

// Writes the file of a pair into a lent buffer, with the table if `with_table` says so, and gives the file's length in bytes. Stopped by 1, 5,
// 9 to 11 and 21, it writes nothing. A table that is too short is refused also where none is to be written, so that an Option of the table would
// promise less than `with_table` beside it.
pub fn write_file(
    p: Pair,
    with_table: bool,
    table: &[u16],
    buffer: &mut [u8],
) -> Result<usize, Refusal>
    ensures answer { result ≡ write_answer p with_table table.now buffer.old }
    ensures bytes { buffer.new ≡ write_buffer p with_table table.now buffer.old }
{
    if table.len() < machine::TABLE_ROOM {
        return Err(Refusal::ShortBuffer);
    }
    if buffer.len() < FILE_ROOM {
        return Err(Refusal::ShortBuffer);
    }
    validity::pair_validity(p, Sets::Nonempty)?;
    let formed = Formed { pair: &p };
    Ok(put_file(formed, with_table, table, buffer))
}
