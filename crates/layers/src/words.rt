// Words: the bytes that faulty replicas say.
ghost use Rattle.std.specs.Prelude.{◌≡◌};
ghost use Rattle.layers.specs.Layers.{byte_at, bit_from};

use crate::layer::Instance;
use quorum::is_set;

// Neither yes nor no: an absent byte reads as this.
const NEITHER: u8 = 2;

// The byte at a place of the words.
pub fn byte_at(words: &[u8], place: usize) -> u8
    ensures { result ≡ byte_at words.now place }
{
    words.get(place).copied().unwrap_or(NEITHER)
}

impl Instance<'_> {
    // The bit that a replica gives: its own, or where it is faulty its word, yes only at 1.
    pub(crate) fn bit_from(&self, giver: usize, own: bool, place: usize) -> bool
        ensures { result ≡ bit_from self.now.marks giver own self.now.words.now place }
    {
        if is_set(self.marks, giver) {
            byte_at(self.words, place) == 1
        } else {
            own
        }
    }
}
