// The rounds of a phase: votes, proposals and the king's round. That an index is below n each call asks: a type for it would say no more.
ghost use Rattle.std.specs.Prelude.{◌≡◌, ℕ, ◌+◌, ◌*◌, ◌<◌, ◌≤◌, length, slice_index_or};
ghost use Rattle.layers.specs.King.{heard, tally, proposal, phase};
ghost use Rattle.layers.specs.Views.{given, bits_of, said_of, taken_at, settled_to, counted};

use crate::layer::Instance;
use crate::phase::Phase;
use crate::said::{Message, Said, Taken, Tally};
use crate::table::fill;
use crate::words::byte_at;
use quorum::is_set;

impl Instance<'_> {
    // What i hears from j in the round whose words start at `at`; a sound j says s to all.
    fn heard(&self, at: usize, s: Said, i: usize, j: usize) -> Said
        requires start { at ≤ 65280 }
        requires receiver { i < self.now.n }
        requires speaker { j < self.now.n }
        ensures { result ≡ heard (given self.now) at (λ _. s) i j }
    {
        if is_set(self.marks, j) {
            Said::from(byte_at(self.words, at + (j * self.n + i)))
        } else {
            s
        }
    }

    // What i hears from all in that round, each saying what it has in the table.
    fn tally<V: Message>(&self, at: usize, table: &[V], i: usize) -> Tally
        requires start { at ≤ 65280 }
        requires receiver { i < self.now.n }
        requires speakers { self.now.n ≤ length table.now }
        ensures { counted result ≡ tally (given self.now) at (λ j. V.aloud (slice_index_or table.now j V.absent)) i }
    {
        let mut tally = Tally::default();
        for (j, message) in table[..self.n].iter().enumerate() {
            tally = tally.with(self.heard(at, message.say(), i, j));
        }
        tally
    }
}

impl Phase<'_> {
    // What i proposes.
    fn propose(&self, bits: &[bool; 16], i: usize) -> Said
        requires { i < self.now.instance.n }
        ensures { result ≡ proposal (given self.now.instance) self.now.king (bits_of bits.now) i }
    {
        let instance = &self.instance;
        let tally = instance.tally(self.start, bits, i);
        tally.enough(instance.n - instance.f)
    }

    // What i takes from the proposals.
    fn take_proposed(&self, bits: &[bool; 16], proposals: &[Said; 16], i: usize) -> Taken
        requires { i < self.now.instance.n }
        ensures { result ≡ taken_at (given self.now.instance) self.now.king (said_of proposals.now) (bits_of bits.now) i }
    {
        let instance = &self.instance;
        let tally = instance.tally(self.start + instance.n * instance.n, proposals, i);
        let bit = tally.enough(instance.f + 1).or(bits[i]);
        Taken {
            bit,
            firm: instance.n - instance.f <= tally.of(bit),
        }
    }

    // The bit of i once the king has given `kings` to all.
    fn settle(&self, taken: Taken, kings: bool, i: usize) -> bool
        requires { i < self.now.instance.n }
        ensures { result ≡ settled_to (given self.now.instance) self.now.king taken kings i }
    {
        let n = self.instance.n;
        // Read also where it does not count, so that the loop over the replicas branches less.
        let told = self
            .instance
            .bit_from(self.king, kings, self.start + 2 * (n * n) + i);
        if taken.firm { taken.bit } else { told }
    }

    // Every replica's bit after the phase.
    pub fn run(&self, bits: &[bool; 16]) -> [bool; 16]
        ensures { (i : ℕ) → i < self.now.instance.n → bits_of result i ≡ phase (given self.now.instance) self.now.king (bits_of bits.now) i }
    {
        let n = self.instance.n;
        let proposals = fill(n, Said::Silent, |i| self.propose(bits, i));
        let taken = fill(
            n,
            Taken::default(),
            |i| self.take_proposed(bits, &proposals, i),
        );
        let kings = taken[self.king].bit;
        fill(n, false, |i| self.settle(taken[i], kings, i))
    }
}
