// The damped program: a reading draws the level a quarter of the way to itself, and the thrust pushes back.
ghost use Rattle.std.specs.Prelude.{◌≡◌, T, ◌==◌, Float};
ghost use Rattle.std.specs.Float.Ieee.{eq, le};
ghost use Rattle.applications.specs.declared.damped.Thrust.{Thrust};
ghost use Rattle.applications.specs.Levels.{unsigned, held, stepped as steps};
ghost use Rattle.applications.specs.Steps.{level_of, Qualifies};
ghost use Rattle.applications.specs.Thrusts.{code_of, thrust_of, Decodes};
ghost use Rattle.std.proofs.Common.{rules};
ghost use Rattle.applications.specs.LevelLaws.{holds, level_eq, level_same_eq, level_number, level_same_le};
ghost use Rattle.applications.specs.FloatOrder.{le_total, le_trans};

use crate::level::Level;
use values::{Application, Ordered, Value};

// A minus zero equals zero, so zero alone stands for both.
fn settle(x: f64) -> f64
    ensures { result ≡ unsigned x }
{
    if x == 0.0 { 0.0 } else { x }
}

// A level never lies out of range, so a step that would leave it stops at the end.
fn hold(x: f64) -> f64
    ensures { result ≡ held x }
{
    if x < -1000000.0 {
        -1000000.0
    } else if 1000000.0 < x {
        1000000.0
    } else {
        x
    }
}

impl Level {
    pub fn number(&self) -> f64
        ensures { result ≡ self.now.value }
    {
        self.value
    }
}

// A number that is no level.
#[derive(Clone, Copy, PartialEq, Eq, Debug)]
pub struct OutOfRange;

impl TryFrom<f64> for Level {
    type Error = OutOfRange;

    ghost try_from_gives = { Qualifies };

    // A NaN and the infinities are out of range too, so the two tests refuse them.
    fn try_from(x: f64) -> Result<Level, OutOfRange> {
        if -1000000.0 <= x && x <= 1000000.0 {
            Ok(Level { value: settle(x) })
        } else {
            Err(OutOfRange)
        }
    }
}

// Levels are compared by their numbers: a derive would say nothing of their meaning.
impl Value for Level {
    ghost Meaning = { Float };

    ghost means = { λ l. l.value };

    ghost alike = { λ x y. eq x.value y.value };

    ghost sameness = { λ x y. Prim.search (rules, holds, level_eq, level_same_eq) };

    fn same(&self, other: &Level) -> bool
        ensures answer { result ≡ eq self.now.value other.now.value }
        ensures equal { T result → self.now ≡ other.now }
    {
        self.number() == other.number()
    }
}

impl Ordered for Level {
    ghost leq = { λ x y. le x.value y.value };

    ghost total = { λ x y. le_total x.value y.value (level_number x.value x.ok) (level_number y.value y.ok) };

    ghost transitive = { λ x y z. le_trans x.value y.value z.value };

    ghost congruent = { level_same_le };

    fn at_most(&self, other: &Level) -> bool {
        self.number() <= other.number()
    }
}

#[derive(Clone, Copy, PartialEq, Eq, Debug)]
pub enum Thrust {
    Off = 0,
    Pos = 1,
    Neg = 2,
}

// A number that stands for no thrust.
#[derive(Clone, Copy, PartialEq, Eq, Debug)]
pub struct UnknownThrust(pub u8);

impl From<Thrust> for u8 {
    ghost from_gives = { λ t r. r ≡ code_of t };

    fn from(thrust: Thrust) -> u8 {
        thrust as u8
    }
}

impl TryFrom<u8> for Thrust {
    type Error = UnknownThrust;

    ghost try_from_gives = { Decodes };

    fn try_from(code: u8) -> Result<Thrust, UnknownThrust> {
        match code {
            0 => Ok(Thrust::Off),
            1 => Ok(Thrust::Pos),
            2 => Ok(Thrust::Neg),
            _ => Err(UnknownThrust(code)),
        }
    }
}

// The thrust pushes a level back, and a level near zero needs no push.
fn thrust_at(x: f64) -> Thrust
    ensures { result ≡ thrust_of x }
{
    if x > 0.5 {
        Thrust::Neg
    } else if x < -0.5 {
        Thrust::Pos
    } else {
        Thrust::Off
    }
}

impl Value for Thrust {
    ghost Meaning = { Thrust };

    ghost means = { λ c. c };

    ghost alike = { λ c d. (code_of c == code_of d) };

    ghost sameness = { Prim.search rules };

    fn same(&self, other: &Thrust) -> bool {
        *self == *other
    }
}

#[derive(Clone, Copy)]
pub struct Damped;

impl Application for Damped {
    type Reading = Level;

    type State = Level;

    type Command = Thrust;

    ghost stepped = { λ _ s x. level_of (steps s.value x.value) };

    ghost commanded = { λ _ s. thrust_of s.value };

    ghost stepping = { Prim.search rules };

    ghost commanding = { Prim.search rules };

    fn step(&self, state: &Level, reading: &Level) -> Level
        ensures meant { result.value ≡ (level_of (steps state.now.value reading.now.value)).value }
        ensures number { result.value ≡ steps state.now.value reading.now.value }
    {
        let x = state.value;
        let gap = reading.value - x;
        let part = gap * 0.25;
        let moved = part + x;
        Level {
            value: settle(hold(moved)),
        }
    }

    fn command(&self, state: &Level) -> Thrust
        ensures { result ≡ thrust_of state.now.value }
    {
        thrust_at(state.value)
    }
}
