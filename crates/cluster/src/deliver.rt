// What the agreement layer delivers, instance by instance, and the masks made of it.
ghost use Rattle.std.specs.Prelude.{◌≡◌, ℕ, ◌+◌, ◌*◌, ◌<◌, ◌≤◌, length, slice_index};
ghost use Rattle.quorum.specs.Counting.{bit as bit_at};
ghost use Rattle.layers.specs.Layers.{Sound};
ghost use Rattle.protocol.specs.Tables.{MaskOf, Written};
ghost use Rattle.cluster.specs.Writing.{faulty_at, bit_of, instance_words, gets, Gets};

use crate::mask::mask_of;
use crate::writing::write_sound;
use layers::layer::{Instance, Layer};
use questions::Parameters;
use quorum::is_set;

// The words of instance m, where each has `size` bytes.
fn words_of(words: &[u8], size: usize, m: usize) -> &[u8]
    requires size { size ≤ 65536 }
    requires instance { m < 64 }
    ensures { result.now ≡ instance_words size words.now m }
{
    let rest = &words[words.len().min(m * size)..];
    &rest[..rest.len().min(size)]
}

// Bit i of each of the n masks from `first` on, as bits 0 to n - 1 of one mask.
fn column(masks: &[u16], first: usize, n: usize, i: usize) -> u16
    requires few { n ≤ 16 }
    requires within { first + n ≤ length masks.now }
    ensures { MaskOf n (λ j. bit_at (slice_index masks.now (first + j)) i) result }
{
    mask_of(n, |j| is_set(masks[first + j], i))
}

// What all instances of the layer are given.
#[derive(Drop)]
pub(crate) struct Instances<'a, L> {
    pub layer: &'a L,
    pub parameters: Parameters,
    pub accept: &'a [bool],
    pub words: &'a [u8],
    ghost accepts: { length accept.now ≡ parameters.n * parameters.sensors },
}

impl<'a, L: Layer> Instances<'a, L> {
    // The bit that sender j gives of sensor k.
    fn bit_of(&self, j: usize, k: usize) -> bool
        requires sender { j < self.now.parameters.n }
        requires sensor { k < self.now.parameters.sensors }
        ensures { result ≡ bit_of self.now.parameters.sensors self.now.parameters.marks self.now.accept.now j k }
    {
        self.parameters.is_sound(j) && self.accept[j * self.parameters.sensors + k]
    }

    // What is delivered in instance m, whose sender is m % n and whose sensor is m / n.
    fn deliver(&self, m: usize) -> u16
        requires { m < self.now.parameters.n * self.now.parameters.sensors }
        ensures { let p = self.now.parameters in (i : ℕ) → i < p.n → Sound p.marks i → bit_at result i ≡ gets (L.Layer.delivered self.now.layer.now p.n p.f p.marks) (L.Layer.size self.now.layer.now p.n p.f) p.n p.sensors p.marks self.now.accept.now self.now.words.now m i }
    {
        let Parameters { n, f, marks, .. } = self.parameters;
        let sender = m % n;
        let instance = Instance {
            n,
            f,
            marks,
            sender,
            bit: self.bit_of(sender, m / n),
            words: words_of(self.words, self.layer.size(n, f), m),
        };
        self.layer.deliver(&instance)
    }

    // What is delivered in each instance, of which there are at most 64: fixed memory, since the engine has no heap.
    fn deliver_all(&self) -> [u16; 64]
        ensures { let p = self.now.parameters in (m i : ℕ) → m < p.n * p.sensors → i < p.n → Sound p.marks i → bit_at (slice_index result m) i ≡ gets (L.Layer.delivered self.now.layer.now p.n p.f p.marks) (L.Layer.size self.now.layer.now p.n p.f) p.n p.sensors p.marks self.now.accept.now self.now.words.now m i }
    {
        let mut masks = [0; 64];
        for m in 0..self.parameters.n * self.parameters.sensors {
            masks[m] = self.deliver(m);
        }
        masks
    }

    // Writes yes at the places of the sound replicas.
    pub fn write_yes(&self, yes: &mut [u16])
        requires { length yes.old ≡ self.now.parameters.n * self.now.parameters.sensors }
        ensures { let p = self.now.parameters in Written (p.n * p.sensors) (faulty_at p.marks p.sensors) (Gets (L.Layer.delivered self.now.layer.now p.n p.f p.marks) (L.Layer.size self.now.layer.now p.n p.f) p.n p.sensors p.marks self.now.accept.now self.now.words.now) yes.old yes.new }
    {
        let Parameters { n, sensors, .. } = self.parameters;
        let masks = self.deliver_all();
        write_sound(self.parameters, sensors, yes, |p| {
            column(&masks, p % sensors * n, n, p / sensors)
        });
    }
}
