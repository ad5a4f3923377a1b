// Counting, the arithmetic on which every quorum stands.
#![tactic(auto)]

ghost use Rattle.std.specs.Prelude.{◌≡◌, ℕ, ◌-◌, ◌^◌, ◌<◌, ◌≤◌, Bool, ◌&&◌};
ghost use Rattle.quorum.specs.Counting.{bit, count, lowest};
ghost use Rattle.quorum.specs.Laws.{CountingLaws, Lowest};
ghost use Rattle.quorum.specs.Tests.{Counted};

// Whether bit i of a mask is set; a mask has 16 bits.
pub fn is_set(mask: u16, i: usize) -> bool
    ensures { result ≡ bit mask i }
{
    i < 16 && (mask >> i) & 1 == 1
}

// How many bits of a mask are set: below any n that bounds the mask, the same number.
pub fn set_bits(mask: u16) -> usize
    ensures all { result ≡ count 16 (bit mask) }
    ensures below { (n : ℕ) → mask < 2 ^ n → result ≡ count n (bit mask) }
{
    mask.count_ones() as usize
}

// How many numbers below n pass the test: a loop, since a chain of `filter` and `count` took up to five times as long, and one of `map` and `sum` nearly twice.
pub fn count_of<F: Fn(usize) -> bool>(n: usize, test: F) -> usize
    requires callable { (i : ℕ) → i < n → F.pre test i }
    ensures { Counted n (F.post test) result }
{
    let mut count = 0;
    for i in 0..n {
        if test(i) {
            count += 1;
        }
    }
    count
}

// The lowest bit below n that is set, or n where none is.
pub fn lowest_set(mask: u16, n: usize) -> usize
    ensures value { result ≡ lowest n (bit mask) }
    ensures is { Lowest n (bit mask) result }
{
    (0..n).find(|i| is_set(mask, *i)).unwrap_or(n)
}

// How many members two sets of at least a and b members, out of n, share at the least.
pub fn intersection(n: usize, a: usize, b: usize) -> usize
    ensures value { result ≡ a - (n - b) }
    ensures shared { (p q : ℕ → Bool) → a ≤ count n p → b ≤ count n q → result ≤ count n (λ i. p i && q i) }
    ensures laws { CountingLaws }
{
    a.saturating_sub(n.saturating_sub(b))
}
