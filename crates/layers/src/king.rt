ghost use Rattle.std.specs.Prelude.{◌≡◌, ℕ, ◌<◌, ◌≤◌, length};
ghost use Rattle.quorum.specs.Counting.{bit as is_set};
ghost use Rattle.layers.specs.King.{king, king_size};
ghost use Rattle.layers.specs.Views.{bits_of};
ghost use Rattle.layers.specs.Agreement.{king_bounded, king_agreement, king_validity};

use crate::layer::{Instance, Layer};
use crate::phase::{Phase, phase_size};
use crate::table::fill;

// The replicas' bits after the sender gave its own, and after f + 1 phases.
fn last_bits(instance: &Instance<'_>) -> [bool; 16]
    ensures { let g = instance.now in (i : ℕ) → i < g.n → bits_of result i ≡ king g.n g.f g.marks g.sender g.bit g.words.now i }
{
    let mut bits = fill(
        instance.n,
        false,
        |i| instance.bit_from(instance.sender, instance.bit, i),
    );
    for king in 0..instance.f + 1 {
        bits = Phase::new(instance, king).run(&bits);
    }
    bits
}

// A word with the bits of the list.
fn gather(bits: &[bool]) -> u16
    requires { length bits.now ≤ 16 }
    ensures { (i : ℕ) → is_set result i ≡ bits_of bits.now i }
{
    let mut word: u16 = 0;
    for (j, b) in bits.iter().enumerate() {
        if *b {
            word |= 1 << j;
        }
    }
    word
}

// The phase king: f + 1 phases, of which one has a sound king.
#[derive(Clone, Copy)]
pub struct PhaseKing;

impl Layer for PhaseKing {
    ghost size = { λ _. king_size };

    ghost delivered = { λ _. king };

    ghost bounded = { λ l. king_bounded };

    ghost agreement = { λ l n f marks sender own words s few _. king_agreement n f marks sender own words s few };

    ghost validity = { λ l n f marks sender own words s few _. king_validity n f marks sender own words s few };

    fn size(&self, n: usize, f: usize) -> usize {
        n + (f + 1) * phase_size(n)
    }

    fn deliver(&self, instance: &Instance<'_>) -> u16 {
        let bits = last_bits(instance);
        gather(&bits[..instance.n])
    }
}
