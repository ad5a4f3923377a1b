ghost use Rattle.std.specs.Prelude.{ℕ, ◌<◌, ◌≤◌, slice_index_or};

// A table of 16 places: f gives the first n, and `rest` stands in the others: fixed memory, and `array::from_fn` was tried, but that its closure may be called did not prove.
pub fn fill<T: Copy, F: Fn(usize) -> T>(n: usize, rest: T, f: F) -> [T; 16]
    requires size { n ≤ 16 }
    requires gives { (i : ℕ) → i < n → F.pre f i }
    ensures { (i : ℕ) → i < n → F.post f i (slice_index_or result i rest) }
{
    let mut table = [rest; 16];
    for i in 0..n {
        table[i] = f(i);
    }
    table
}
