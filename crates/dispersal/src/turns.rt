// The turns of the replicas. That an index is below n each call asks: a type for it would say no more.
ghost use Rattle.std.specs.Prelude.{◌≡◌, ◌*◌, ◌<◌, length};
ghost use Rattle.protocol.specs.Turns.{turn_at};
ghost use Rattle.dispersal.specs.Turning.{RanBelow};

use protocol::Turn;
use questions::Parameters;
use selections::NO_SENSOR;

// What the turns are told by: what was accepted, and the sensors that were chosen.
#[derive(Clone, Copy)]
pub(crate) struct Turns<'a> {
    pub(crate) parameters: Parameters,
    pub(crate) accept: &'a [bool],
    pub(crate) chosen: &'a [u8],
    ghost accepts: { length accept.now ≡ parameters.n * parameters.sensors },
    ghost choices: { length chosen.now ≡ parameters.n },
}

impl<'a> Turns<'a> {
    // The turn of replica i.
    pub(crate) fn of(&self, i: usize) -> Turn
        requires { i < self.now.parameters.n }
        ensures is { result ≡ turn_at self.now.parameters.sensors self.now.accept.now self.now.chosen.now i }
        ensures within { RanBelow (self.now.parameters.n * self.now.parameters.sensors) result }
    {
        let c = self.chosen[i];
        if c == NO_SENSOR {
            return Turn::Idle;
        }
        let sensor = c as usize;
        let p = i * self.parameters.sensors + sensor;
        if sensor < self.parameters.sensors && self.accept[p] {
            Turn::Ran(p)
        } else {
            Turn::Behind
        }
    }
}
