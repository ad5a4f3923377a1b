// Masks made of a test's answers. The layers' own is apart: across a crate this would be public, and refuse what a `requires` rules out.
ghost use Rattle.std.specs.Prelude.{ℕ, ◌<◌, ◌≤◌};
ghost use Rattle.cluster.specs.Writing.{Masked};

// A mask whose bit j, for each j below n, is what the test answers at j.
pub(crate) fn mask_of<F: Fn(usize) -> bool>(n: usize, test: F) -> u16
    requires few { n ≤ 16 }
    requires callable { (j : ℕ) → j < n → F.pre test j }
    ensures { Masked n (F.post test) result }
{
    let mut mask: u16 = 0;
    for j in 0..n {
        if test(j) {
            mask |= 1 << j;
        }
    }
    mask
}
