// The states that sound replicas go on with.
ghost use Rattle.std.specs.Prelude.{◌≡◌, ℕ, ◌<◌, length};
ghost use Rattle.quorum.specs.Counting.{bit, count};
ghost use Rattle.protocol.specs.Tables.{Kept, Stored, ByBit};
ghost use Rattle.dispersal.specs.Turning.{onward, takes_over, Follows};

use crate::dispersed::{Dispersal, Received};
use protocol::Turn;
use values::Value;
use values::entries::majority;

// What becomes of a replica's state.
#[derive(Clone, Copy)]
enum Next<S> {
    Stays,
    Runs(S),
    Takes(S),
}

impl<'a, S: Value> Dispersal<'a, S> {
    // What becomes of the state of replica i.
    fn next(&self, i: usize) -> Next<S>
        requires { i < self.now.turns.parameters.n }
        ensures { let d = self.now in let t = d.turns in let p = t.parameters in
            Follows S.Value.means (bit p.marks i)
            (onward S.Value.alike p.n p.sensors p.marks d.run.now t.accept.now t.chosen.now d.states.now i)
            (takes_over S.Value.alike p.n p.sensors p.marks d.run.now t.accept.now t.chosen.now d.states.now i)
            result }
    {
        if !self.turns.parameters.is_sound(i) {
            return Next::Stays;
        }
        match self.turns.of(i) {
            Turn::Idle => Next::Stays,
            Turn::Ran(p) => Next::Runs(self.run[p]),
            Turn::Behind => {
                let received = Received {
                    dispersal: self,
                    to: i,
                };
                majority(&received).map_or(Next::Stays, Next::Takes)
            }
        }
    }

    // Writes the states of the sound replicas, and tells how many took a dispersed one.
    pub(crate) fn write(&self, state: &mut [S]) -> usize
        requires { length state.old ≡ self.now.turns.parameters.n }
        ensures state { let d = self.now in let t = d.turns in let p = t.parameters in
            (i : ℕ) → i < p.n → ByBit (bit p.marks i) (Kept state.old state.new i)
            (Stored S.Value.means (onward S.Value.alike p.n p.sensors p.marks d.run.now t.accept.now t.chosen.now d.states.now i) state.old state.new i) }
        ensures taken { let d = self.now in let t = d.turns in let p = t.parameters in
            result ≡ count p.n (takes_over S.Value.alike p.n p.sensors p.marks d.run.now t.accept.now t.chosen.now d.states.now) }
    {
        let mut taken = 0;
        for (i, held) in state.iter_mut().enumerate() {
            match self.next(i) {
                Next::Stays => {}
                Next::Runs(s) => *held = s,
                Next::Takes(s) => {
                    *held = s;
                    taken += 1;
                }
            }
        }
        taken
    }
}
