// The text of a machine of a file, in the Hanoi Omega-Automata format.
#![tactic(auto)]

ghost use Rattle.std.specs.Prelude.{◌≡◌, length};
ghost use Rattle.machine.specs.Refusals.{spot_after};
ghost use Rattle.codec.specs.Answers.{length_of};
ghost use Rattle.export.specs.Exporting.{export_answer, export_buffer};

use machine::Refusal;

// Writes the text of one machine of a file into a lent buffer of 20,000 bytes or more: of the concrete machine for 0, of the abstract one for 1. It
// gives the text's length, or where the call was stopped. The buffer is lent, as C lends it. Any `which` has an answer, 20 for another number; an enum would ask more of callers.
// Each caller of the reader lends a table of its own and passes a refusal on directly: document 01 names this form.
pub fn text_bytes(bytes: &[u8], which: usize, out: &mut [u8]) -> Result<usize, Refusal>
    ensures answer { result ≡ export_answer bytes.now which (length out.old) }
    ensures content { out.new ≡ export_buffer bytes.now which out.old }
{
    if out.len() < hanoi::TEXT_ROOM {
        return Err(Refusal::ShortBuffer);
    }
    let mut table = [0u16; machine::TABLE_ROOM];
    let show = codec::reader::read_file(bytes, &mut table);
    show.reading?;
    match which {
        0 => hanoi::write_text(show.pair.concrete, out),
        1 => hanoi::write_text(show.pair.abstraction, out),
        _ => Err(Refusal::OutOfRange),
    }
}

// The same for C, whose interface wants bytes, a lent buffer and `spot`, and one number back: the text's length, or 0 with the refusal's number and
// spot in `spot`, which is unchanged beside a length.
pub fn hoa_file(bytes: &[u8], which: usize, out: &mut [u8], spot: &mut [u64; 4]) -> usize
    ensures value { result ≡ length_of (export_answer bytes.now which (length out.old)) }
    ensures content { out.new ≡ export_buffer bytes.now which out.old }
    ensures numbers { spot.new ≡ spot_after (export_answer bytes.now which (length out.old)) spot.old }
{
    machine::told(text_bytes(bytes, which, out), spot).unwrap_or(0)
}
