ghost use Rattle.std.specs.Prelude.{◌≡◌, ℕ, ◌<◌, ◌≤◌, Bool, List};
ghost use Rattle.quorum.specs.Counting.{bit as is_set};
ghost use Rattle.layers.specs.Layers.{Sized, Sound, FewFaulty, Agreed, AllGet};

// One bit to be brought from its sender to all, and the words of the faulty about it.
#[derive(Clone, Copy)]
pub struct Instance<'a> {
    pub n: usize,
    pub f: usize,
    pub marks: u16,
    pub sender: usize,
    pub bit: bool,
    pub words: &'a [u8],
    ghost sized: { Sized n f },
    ghost sender_lt_n: { sender < n },
}

// A protocol that brings one sender's bit to every sound replica, the same to all.
pub trait Layer {
    // the bytes of words that an instance has, from n and f
    ghost size: { Self → ℕ → ℕ → ℕ };

    // the bit that a receiver gets, from n, f, the marks, the sender, its bit, the words and the receiver
    ghost delivered: { Self → ℕ → ℕ → ℕ → ℕ → Bool → List ℕ → ℕ → Bool };

    fn size(&self, n: usize, f: usize) -> usize
        requires { Sized n f }
        ensures { result ≡ size self.now n f };

    // Bit i of the answer is what the sound replica i gets.
    fn deliver(&self, instance: &Instance<'_>) -> u16
        ensures { let g = instance.now in (i : ℕ) → i < g.n → Sound g.marks i → is_set result i ≡ delivered self.now g.n g.f g.marks g.sender g.bit g.words.now i };

    ghost bounded: { (l : Self) (n f : ℕ) → Sized n f → size l n f ≤ 65536 };

    ghost agreement: { (l : Self) (n f marks sender : ℕ) (own : Bool) (words : List ℕ) → Sized n f → FewFaulty n f marks → sender < n → Agreed n marks (delivered l n f marks sender own words) };

    ghost validity: { (l : Self) (n f marks sender : ℕ) (own : Bool) (words : List ℕ) → Sized n f → FewFaulty n f marks → sender < n → Sound marks sender → AllGet n marks (delivered l n f marks sender own words) own };
}
