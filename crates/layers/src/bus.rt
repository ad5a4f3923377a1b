ghost use Rattle.std.specs.Prelude.{◌≡◌, ℕ, ◌<◌, true, false};
ghost use Rattle.quorum.specs.Counting.{bit as is_set};
ghost use Rattle.layers.specs.Layers.{Sound, bit_from};
ghost use Rattle.std.proofs.Common.{rules};

use crate::layer::{Instance, Layer};

// A medium that all replicas read: what the sender puts on it reaches all alike.
#[derive(Clone, Copy)]
pub struct Bus;

impl Layer for Bus {
    ghost size = { λ _ _ _. 1 };

    ghost delivered = { λ _ _ _ marks sender own words _. bit_from marks sender own words 0 };

    ghost bounded = { Prim.search rules };

    ghost agreement = { Prim.search rules };

    ghost validity = { Prim.search rules };

    fn size(&self, n: usize, f: usize) -> usize {
        1
    }

    // All receivers read one bit, so all sixteen bits of the answer are alike.
    fn deliver(&self, instance: &Instance<'_>) -> u16
        ensures gets { let g = instance.now in (i : ℕ) → i < g.n → Sound g.marks i → is_set result i ≡ bit_from g.marks g.sender g.bit g.words.now 0 }
        ensures none { let g = instance.now in bit_from g.marks g.sender g.bit g.words.now 0 ≡ false → result ≡ 0 }
        ensures all { let g = instance.now in bit_from g.marks g.sender g.bit g.words.now 0 ≡ true → result ≡ 65535 }
    {
        if instance.bit_from(instance.sender, instance.bit, 0) {
            u16::MAX
        } else {
            0
        }
    }
}
