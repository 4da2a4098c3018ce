// Masks of 64 bits: bit s of a mask means state s. Every call is total: a bit number of 64 or more is in no mask.
#![tactic(auto)]

ghost use Rattle.std.specs.Prelude.{◌≡◌, ◌<◌, Bool, ℕ, min};
ghost use Rattle.mask.specs.Bits.{has_bit, lowest_of, rest_of, with_bit, full_mask};
ghost use Rattle.mask.specs.Bounded.{count};
ghost use Rattle.mask.specs.Tables.{mask_of};

// Whether state i is in the mask.
pub fn has(m: u64, i: usize) -> bool
    ensures { result ≡ has_bit m i }
{
    if i < 64 { (m >> i) & 1 == 1 } else { false }
}

// The mask of all states below a width; of all 64 for a width over 64.
pub fn full(width: usize) -> u64
    ensures { result ≡ full_mask (min width 64) }
{
    if width < 64 {
        (1u64 << width) - 1
    } else {
        18446744073709551615
    }
}

// The lowest state of the mask, 64 for the empty mask. It is no option: each caller asks of a mask that has a state, and 64 is in no mask.
pub fn lowest(m: u64) -> usize
    ensures { result ≡ lowest_of 64 m }
{
    u64::trailing_zeros(m) as usize
}

// The mask without its lowest state; the empty mask stays empty.
pub fn rest(m: u64) -> u64
    ensures { result ≡ rest_of m }
{
    if m == 0 { 0 } else { m & (m - 1) }
}

// The mask with state i; unchanged for an i of 64 or more.
pub fn with(m: u64, i: usize) -> u64
    ensures { result ≡ with_bit m i }
{
    if i < 64 { m | (1u64 << i) } else { m }
}

// How many states the mask has.
pub fn size(m: u64) -> usize
    ensures { result ≡ count 64 (has_bit m) }
{
    u64::count_ones(m) as usize
}

// The mask of the numbers below n, and below 64, that pass a test.
pub fn those<F: Fn(usize) -> bool>(n: usize, test: F) -> u64
    requires { (i : ℕ) → i < min n 64 → F.pre test i }
    ensures { (p : ℕ → Bool) → ((i : ℕ) (b : Bool) → i < min n 64 → F.post test i b → b ≡ p i) → result ≡ mask_of (min n 64) p }
{
    let mut m = 0;
    for i in 0..n.min(64) {
        if test(i) {
            m = with(m, i);
        }
    }
    m
}
