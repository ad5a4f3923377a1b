// Writing to a table place by place.
ghost use Rattle.std.specs.Prelude.{◌≡◌, ℕ, ◌<◌, ◌≤◌, false, length};
ghost use Rattle.cluster.specs.Writing.{faulty_at, Wrote};

use questions::Parameters;

// Writes what `each` gives to the places of the sound replicas, of which each has `w`.
pub(crate) fn write_sound<T: Copy, F: Fn(usize) -> T>(
    parameters: Parameters,
    w: usize,
    table: &mut [T],
    each: F,
)
    requires wide { 1 ≤ w }
    requires callable { (p : ℕ) → p < length table.old → faulty_at parameters.marks w p ≡ false → F.pre each p }
    ensures { Wrote (length table.old) (faulty_at parameters.marks w) (F.post each) table.old table.new }
{
    for p in 0..table.len() {
        if parameters.is_sound(p / w) {
            table[p] = each(p);
        }
    }
}
