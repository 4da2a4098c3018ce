// The text of a machine in the Hanoi Omega-Automata format, HOA v1 (document 02, No. 1). Each function puts a part of the text behind what is there.
// That the counts of a machine are in range is asked where it is needed: `validity` tells it of one machine, and `machine::Formed` holds a pair.
#![tactic(auto)]

ghost use Rattle.std.specs.Prelude.{cond, [], ◌++◌, ◌≡◌, ◌≤◌, ◌<◌, length, take};
ghost use Rattle.mask.specs.Bits.{has_bit};
ghost use Rattle.text.specs.Decimal.{decimal};
ghost use Rattle.machine.specs.Refusals.{valid};
ghost use Rattle.machine.specs.WellFormed.{machine_validity};
ghost use Rattle.hanoi.specs.Text.{acceptance, label, hoa_text, text_room, text_answer, text_buffer};
ghost use Rattle.hanoi.specs.Parts.{items, start_lines, braces, state_text, sets_mask, lines_below, head_text};

use arrayvec::ArrayVec;
use machine::{Machine, Refusal};
use text::{append, append_byte, append_number};

// The least length of a lent buffer; every text is shorter.
pub const TEXT_ROOM: usize = 20000;

// A text; what there is no room for is left out. Words are put one behind the other, and not by `write!`, for the reason that `report::Line` gives. `prove!` tells the proof of its room where it may be that nothing is put.
type Text = ArrayVec<u8, TEXT_ROOM>;

// ---- Numbers and lists of numbers

// Puts a word, and a number behind it: two calls of `text`, as `append_count` of `turnline` has for a text of another room.
fn append_numbered(text: &mut Text, word: &[u8], n: usize)
    ensures { text.new.items ≡ take text_room (text.old.items ++ (word.now ++ decimal n)) }
{
    append(text, word);
    append_number(text, n);
}

// Puts the numbers of a mask, ascending, a blank between two.
fn append_items(text: &mut Text, m: u64)
    ensures { text.new.items ≡ take text_room (text.old.items ++ items m) }
{
    prove!(text.len() <= TEXT_ROOM);
    if m == 0 {
        return;
    }
    append_number(text, mask::lowest(m));
    let mut later = mask::rest(m);
    while later != 0 {
        append_byte(text, b' ');
        append_number(text, mask::lowest(later));
        later = mask::rest(later);
    }
}

// ---- The lines before those of the states

// Puts a line for each start state.
fn append_starts(text: &mut Text, start: u64)
    ensures { text.new.items ≡ take text_room (text.old.items ++ start_lines start) }
{
    prove!(text.len() <= TEXT_ROOM);
    let mut left = start;
    while left != 0 {
        append_numbered(text, b"Start: ", mask::lowest(left));
        append_byte(text, b'\n');
        left = mask::rest(left);
    }
}

// Puts the acceptance condition of n sets.
fn append_acceptance(text: &mut Text, n: usize)
    requires { 0 < n }
    ensures { text.new.items ≡ take text_room (text.old.items ++ acceptance n) }
{
    append(text, b"Inf(0)");
    for k in 1..n {
        append_numbered(text, b"&Inf(", k);
        append_byte(text, b')');
    }
}

// Puts all lines before those of the states.
fn append_head(text: &mut Text, m: &Machine)
    requires { 0 < m.now.sets }
    ensures { text.new.items ≡ take text_room (text.old.items ++ head_text m.now.states m.now.sets m.now.start) }
{
    append_numbered(text, b"HOA: v1\nStates: ", m.states);
    append_byte(text, b'\n');
    append_starts(text, m.start);
    append_numbered(
        text,
        b"AP: 8 \"o0\" \"o1\" \"o2\" \"o3\" \"o4\" \"o5\" \"o6\" \"o7\"\nacc-name: generalized-Buchi ",
        m.sets,
    );
    append_numbered(text, b"\nAcceptance: ", m.sets);
    append_byte(text, b' ');
    append_acceptance(text, m.sets);
    append(text, b"\nproperties: state-labels state-acc\n--BODY--\n");
}

// ---- The lines of the states

// Puts the number i behind the first word where bit i is one, and behind the second where it is zero.
fn append_literal(text: &mut Text, o: u8, i: usize, one: &[u8], zero: &[u8])
    ensures { text.new.items ≡ take text_room (text.old.items ++ (cond (has_bit o i) one.now zero.now ++ decimal i)) }
{
    append(text, if mask::has(o as u64, i) { one } else { zero });
    append_number(text, i);
}

// Puts the label of an observation.
fn append_label(text: &mut Text, o: u8)
    ensures { text.new.items ≡ take text_room (text.old.items ++ label o) }
{
    append_literal(text, o, 0, b"", b"!");
    for i in 1..8 {
        append_literal(text, o, i, b"&", b"&!");
    }
}

// Puts a blank and the sets of a state in braces; nothing where it is in no set.
fn append_braces(text: &mut Text, members: u64)
    ensures { text.new.items ≡ take text_room (text.old.items ++ braces members) }
{
    prove!(text.len() <= TEXT_ROOM);
    if members == 0 {
        return;
    }
    append(text, b" {");
    append_items(text, members);
    append_byte(text, b'}');
}

// Puts the two lines of state s, by its observation and the masks of its sets and successors.
fn append_state(text: &mut Text, s: usize, o: u8, members: u64, successors: u64)
    ensures { text.new.items ≡ take text_room (text.old.items ++ state_text s o members successors) }
{
    append(text, b"State: [");
    append_label(text, o);
    append_numbered(text, b"] ", s);
    append_braces(text, members);
    append_byte(text, b'\n');
    append_items(text, successors);
    append_byte(text, b'\n');
}

// The mask of the sets below k that have state s.
fn sets_with(k: usize, fairness: &[u64; 8], s: usize) -> u64
    requires { k ≤ 8 }
    ensures { result ≡ sets_mask k fairness.now s }
{
    mask::those(k, |j| mask::has(fairness[j], s))
}

// Puts the lines of all states of a machine.
fn append_states(text: &mut Text, m: &Machine)
    requires n_bound { m.now.states ≤ 64 }
    requires k_bound { m.now.sets ≤ 8 }
    ensures { text.new.items ≡ take text_room (text.old.items ++ lines_below m.now.states m.now.sets m.now.observations m.now.successors m.now.fairness) }
{
    prove!(text.len() <= TEXT_ROOM);
    for s in 0..m.states {
        let members = sets_with(m.sets, &m.fairness, s);
        append_state(text, s, m.observations[s], members, m.successors[s]);
    }
}

// ---- The call

// Puts the text of a well-formed machine into an empty text.
fn append_text(text: &mut Text, m: &Machine)
    requires empty { text.old.items ≡ [] }
    requires formed { machine_validity 8 m.now ≡ valid }
    ensures { text.new.items ≡ hoa_text m.now }
{
    append_head(text, m);
    append_states(text, m);
    append(text, b"--END--\n");
}

// Writes the text of one machine, of either kind, into a lent buffer of 20,000 bytes or more, and gives the text's length, or where the call was stopped.
// The C interface lends the buffer, so that the text goes there and its length comes back.
pub fn write_text(m: Machine, out: &mut [u8]) -> Result<usize, Refusal>
    ensures answer { result ≡ text_answer m (length out.old) }
    ensures content { out.new ≡ text_buffer m out.old }
{
    if out.len() < TEXT_ROOM {
        return Err(Refusal::ShortBuffer);
    }
    validity::machine_validity(8, m)?;
    let mut text = Text::new();
    append_text(&mut text, &m);
    let n = text.len();
    out[..n].copy_from_slice(&text);
    Ok(n)
}
