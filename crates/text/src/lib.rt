// Text: the decimal digits of a number; words and numbers put behind a text, and bytes put at a place of a lent buffer.
#![tactic(auto)]

ghost use Rattle.std.specs.Prelude.{◌≡◌, [], ◌∷◌, ◌++◌, take, length};
ghost use Rattle.std.proofs.lemmas.List.Edits.{sets};
ghost use Rattle.text.specs.Decimal.{decimal};
ghost use Rattle.text.specs.Answers.{digits_for};

use arrayvec::ArrayVec;

// Puts a word behind a text, as much of it as there is room for. Each caller says in this form what it puts: `take N (before ++ part)`.
pub fn append<const N: usize>(text: &mut ArrayVec<u8, N>, word: &[u8])
    ensures { text.new.items ≡ take N (text.old.items ++ word.now) }
{
    let end = word.len().min(text.remaining_capacity());
    text.try_extend_from_slice(&word[..end]).unwrap();
}

// Puts one byte behind a text; a full text stays as it is.
pub fn append_byte<const N: usize>(text: &mut ArrayVec<u8, N>, byte: u8)
    ensures { text.new.items ≡ take N (text.old.items ++ (byte ∷ [])) }
{
    if !text.is_full() {
        text.push(byte);
    }
}

// Puts a number's digits behind a text, in the same way: the first digit, and each later one behind the digits of the tenth.
pub fn append_number<const N: usize>(text: &mut ArrayVec<u8, N>, n: usize)
    ensures { text.new.items ≡ take N (text.old.items ++ decimal n) }
{
    if n < 10 {
        append_byte(text, 48 + n as u8);
    } else {
        append_number(text, n / 10);
        append_byte(text, 48 + (n % 10) as u8);
    }
}

// ---- At a place of a lent buffer

// The decimal digits of a number, which stand at the end of `bytes`, from `start` on; before them are zeros.
#[derive(Clone, Copy)]
pub struct Digits {
    pub bytes: [u8; 20],
    pub start: usize,
}

// The decimal digits of n in ASCII.
pub fn digits_of(n: usize) -> Digits
    ensures { result ≡ digits_for n }
{
    let mut bytes = [0u8; 20];
    let mut start = 19;
    let mut rest = n;
    while 10 <= rest {
        bytes[start] = 48 + (rest % 10) as u8;
        rest /= 10;
        start -= 1;
    }
    bytes[start] = 48 + rest as u8;
    Digits { bytes, start }
}

// Puts a word's bytes into the buffer from index `at` on, as many as there is room for.
pub fn put(out: &mut [u8], at: usize, word: &[u8])
    ensures { out.new ≡ sets out.old at word.now }
{
    let mut to = at;
    let mut i = 0;
    while i < word.len() {
        if out.len() <= to {
            return;
        }
        out[to] = word[i];
        to += 1;
        i += 1;
    }
}

// Puts the decimal digits of n in the same way, and gives how many they are.
pub fn put_number(out: &mut [u8], at: usize, n: usize) -> usize
    ensures count { result ≡ length (decimal n) }
    ensures bytes { out.new ≡ sets out.old at (decimal n) }
{
    let digits = digits_of(n);
    let bytes = digits.bytes;
    let start = digits.start;
    put(out, at, &bytes[start..]);
    20 - start
}
