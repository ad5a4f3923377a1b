// What was heard, read by position and not copied.
ghost use Rattle.std.specs.Prelude.{◌≡◌, ◌*◌, ◌/◌, ◌%◌, ◌<◌, length};
ghost use Rattle.quorum.specs.Counting.{bit};
ghost use Rattle.cluster.specs.Writing.{heard_row, heeded};

use questions::Parameters;
use quorum::is_set;
use values::entries::Entries;
use values::{Entry, Value};

// What every replica heard from every other about every sensor.
#[derive(Drop)]
pub(crate) struct Heard<'a, T> {
    pub parameters: Parameters,
    pub entries: &'a [Entry<T>],
    ghost long: { length entries.now ≡ parameters.n * parameters.n * parameters.sensors },
}

impl<'a, T: Value> Heard<'a, T> {
    // What the replica of a place, in a table over replicas and sensors, heard about its sensor.
    pub fn row(&self, p: usize) -> Row<'_, T>
        requires { p < self.now.parameters.n * self.now.parameters.sensors }
        ensures heard { result.heard.now ≡ self.now }
        ensures replica { result.i ≡ p / self.now.parameters.sensors }
        ensures sensor { result.k ≡ p % self.now.parameters.sensors }
    {
        Row {
            heard: self,
            i: p / self.parameters.sensors,
            k: p % self.parameters.sensors,
        }
    }
}

// What replica i heard about sensor k, by the sender.
#[derive(Drop)]
pub(crate) struct Row<'a, T> {
    pub heard: &'a Heard<'a, T>,
    pub i: usize,
    pub k: usize,
    ghost replica: { i < heard.now.parameters.n },
    ghost sensor: { k < heard.now.parameters.sensors },
}

impl<'a, T: Value> Entries for Row<'a, T> {
    type Item = T;

    ghost size = { λ s. s.heard.now.parameters.n };

    ghost entry = { λ s. let h = s.heard.now in heard_row h.parameters.n h.parameters.sensors h.entries.now s.i s.k };

    fn len(&self) -> usize {
        self.heard.parameters.n
    }

    fn at(&self, j: usize) -> Entry<T> {
        let Parameters { n, sensors, .. } = self.heard.parameters;
        self.heard.entries.at((self.i * n + j) * sensors + self.k)
    }
}

// The same, from the senders of a mask only.
#[derive(Drop)]
pub(crate) struct Heeded<'a, T> {
    pub row: &'a Row<'a, T>,
    pub mask: u16,
}

impl<'a, T: Value> Entries for Heeded<'a, T> {
    type Item = T;

    ghost size = { λ s. s.row.now.heard.now.parameters.n };

    ghost entry = { λ s. let h = s.row.now.heard.now in heeded (bit s.mask) (heard_row h.parameters.n h.parameters.sensors h.entries.now s.row.now.i s.row.now.k) };

    fn len(&self) -> usize {
        self.row.len()
    }

    fn at(&self, j: usize) -> Entry<T> {
        if is_set(self.mask, j) {
            self.row.at(j)
        } else {
            None
        }
    }
}
