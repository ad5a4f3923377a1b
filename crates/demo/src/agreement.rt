// One instance of an agreement layer among four replicas, in which replica 3 sends and is two-faced.
ghost use Rattle.std.specs.Prelude.{◌≡◌, ℕ, ◌<◌, false};
ghost use Rattle.quorum.specs.Counting.{bit};

use layers::layer::{Instance, Layer};

// What the layer delivers: one bit to all sound replicas, whatever the words, by the layer's laws alone.
pub fn deliver<L: Layer>(layer: &L, words: &[u8]) -> u16
    ensures value { (i : ℕ) → i < 3 → bit result i ≡ L.Layer.delivered layer.now 4 1 8 3 false words.now i }
    ensures agreed { (i k : ℕ) → i < 3 → k < 3 → bit result i ≡ bit result k }
{
    layer.deliver(&Instance {
        n: 4,
        f: 1,
        marks: 8,
        sender: 3,
        bit: false,
        words,
    })
}
