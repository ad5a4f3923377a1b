// The lowest candidate.
ghost use Rattle.selections.specs.Rules.{first};
ghost use Rattle.selections.specs.Sensors.{first_chooses};

use crate::{NO_SENSOR, Selection};
use values::{Entry, Value};

#[derive(Clone, Copy)]
pub struct First;

impl<R: Value> Selection<R> for First {
    ghost choice = { λ _. first };

    ghost chooses = { λ s. first_chooses R.Value.means };

    fn choose(&self, readings: &[Entry<R>]) -> u8 {
        match readings.iter().position(|e| e.is_some()) {
            Some(k) => k as u8,
            None => NO_SENSOR,
        }
    }
}
