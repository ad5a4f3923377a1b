// What is dispersed, read where it lies and not copied together.
ghost use Rattle.std.specs.Prelude.{◌≡◌, ◌*◌, ◌<◌, length};
ghost use Rattle.protocol.specs.Turns.{dispersal};

use crate::turns::Turns;
use protocol::Turn;
use values::entries::Entries;
use values::{Entry, Value};

// What every replica disperses: the states that were run, and what the faulty say of theirs.
#[derive(Drop)]
pub(crate) struct Dispersal<'a, S> {
    pub(crate) turns: Turns<'a>,
    pub(crate) run: &'a [S],
    pub(crate) states: &'a [Entry<S>],
    ghost runs: { length run.now ≡ turns.parameters.n * turns.parameters.sensors },
    ghost said: { length states.now ≡ turns.parameters.n * turns.parameters.n },
}

// What the replica `to` is dispersed, by the sender.
#[derive(Drop)]
pub(crate) struct Received<'a, S> {
    pub(crate) dispersal: &'a Dispersal<'a, S>,
    pub(crate) to: usize,
    ghost receiver: { to < dispersal.now.turns.parameters.n },
}

impl<'a, S: Value> Entries for Received<'a, S> {
    type Item = S;

    ghost size = { λ s. s.dispersal.now.turns.parameters.n };

    ghost entry = { λ s. let d = s.dispersal.now in let t = d.turns in let p = t.parameters in dispersal p.n p.sensors p.marks d.run.now t.accept.now t.chosen.now d.states.now s.to };

    fn len(&self) -> usize {
        self.dispersal.turns.parameters.n
    }

    fn at(&self, j: usize) -> Entry<S> {
        let d = self.dispersal;
        let n = d.turns.parameters.n;
        if !d.turns.parameters.is_sound(j) {
            return d.states.at(j * n + self.to);
        }
        match d.turns.of(j) {
            Turn::Ran(p) => Some(d.run[p]),
            Turn::Idle | Turn::Behind => None,
        }
    }
}
