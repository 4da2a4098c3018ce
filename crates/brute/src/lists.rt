// Lists of any elements.
ghost use Rattle.std.specs.Prelude.{◌≡◌, ◌<◌, get_or, length, ℕ};
ghost use Rattle.brute.specs.Each.{IsEach};

// Element i of a list, and `past` where the list has none.
pub fn element_or<T: Copy>(xs: &[T], i: usize, past: T) -> T
    ensures { result ≡ get_or xs.now i past }
{
    xs.get(i).copied().unwrap_or(past)
}

// Puts into each place of a list what f gives for it.
pub fn put_each<T: Copy, F: Fn(usize) -> T>(out: &mut [T], f: F)
    requires { (i : ℕ) → i < length out.old → F.pre f i }
    ensures { IsEach (F.post f) out.new (length out.old) }
{
    for (i, x) in out.iter_mut().enumerate() {
        *x = f(i);
    }
}
