// Selections: which candidate's reading a cycle goes on with.
#![tactic(auto)]

ghost use Rattle.std.specs.Prelude.{◌≡◌, ℕ, ◌<◌, List, length, Option};
ghost use Rattle.selections.specs.Choices.{Chooses, no_sensor};

pub mod first;
pub mod mid_value;

use values::{Entry, Value};

// The answer that stands for no sensor: a number and no option, by the rule of the tables, which hold it.
pub const NO_SENSOR: u8 = 255;

// Chooses one of the candidates, which are the sensors whose entries are present.
pub trait Selection<R: Value> {
    ghost choice: { Self → List (Option R) → ℕ };

    fn choose(&self, readings: &[Entry<R>]) -> u8
        requires { length readings.now < no_sensor }
        ensures { result ≡ choice self.now readings.now };

    ghost chooses: { (s : Self) → Chooses R.Value.means (choice s) };
}
