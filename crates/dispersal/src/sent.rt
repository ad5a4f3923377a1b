// What the replicas send, read where it lies and not copied together.
ghost use Rattle.std.specs.Prelude.{◌≡◌, length};
ghost use Rattle.protocol.specs.Turns.{sending};

use crate::turns::Turns;
use protocol::Turn;
use values::entries::Entries;
use values::{Application, Entry};

// What is sent, by the sender: the commands of the states that are held, which are lent for less, since they were just written.
#[derive(Drop)]
pub(crate) struct Sent<'a, 's, A: Application> {
    pub(crate) turns: Turns<'a>,
    pub(crate) app: &'a A,
    pub(crate) state: &'s [A::State],
    pub(crate) commands: &'a [Entry<A::Command>],
    ghost holds: { length state.now ≡ turns.parameters.n },
    ghost said: { length commands.now ≡ turns.parameters.n },
}

impl<'a, 's, A: Application> Entries for Sent<'a, 's, A> {
    type Item = A::Command;

    ghost size = { λ s. s.turns.parameters.n };

    ghost entry = { λ s. let t = s.turns in sending (A.Application.commanded s.app.now) t.parameters.sensors t.parameters.marks t.accept.now t.chosen.now s.state.now s.commands.now };

    fn len(&self) -> usize {
        self.turns.parameters.n
    }

    fn at(&self, j: usize) -> Entry<A::Command> {
        if !self.turns.parameters.is_sound(j) {
            return self.commands.at(j);
        }
        match self.turns.of(j) {
            Turn::Behind => None,
            Turn::Idle | Turn::Ran(_) => Some(self.app.command(&self.state[j])),
        }
    }
}
