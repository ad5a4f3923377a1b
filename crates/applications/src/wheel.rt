// The wheel: a count of 32 bits that readings add to, and a torque against it.
ghost use Rattle.std.specs.Prelude.{◌≡◌, T, ℤ};
ghost use Rattle.applications.specs.Counts.{leq_count, same_count, same_torque};
ghost use Rattle.applications.specs.Wheel.{turned, torque_of};
ghost use Rattle.std.proofs.Common.{rules};

use std::fmt;
use values::{Application, Ordered, Value};

// A reading or a state.
#[derive(Clone, Copy, PartialEq, Eq, PartialOrd, Ord, Debug)]
pub struct Count {
    pub value: i32,
}

impl fmt::Display for Count {
    ghost output = { λ c. ⟦<i32 as fmt::Display>⟧.output c.value };

    ghost styled_output = { λ c. ⟦<i32 as fmt::Display>⟧.styled_output c.value };

    fn fmt<W: fmt::Write>(&self, f: &mut fmt::Formatter<W>) -> fmt::Result {
        let number = self.value;
        number.fmt(f)
    }
}

// It means its number, so two that mean the same are equal.
impl Value for Count {
    ghost Meaning = { ℤ };

    ghost means = { λ c. c.value };

    ghost alike = { same_count };

    ghost sameness = { Prim.search rules };

    fn same(&self, other: &Count) -> bool
        ensures answer { result ≡ same_count self.now other.now }
        ensures equal { T result → self.now ≡ other.now }
    {
        *self == *other
    }
}

impl Ordered for Count {
    ghost leq = { leq_count };

    ghost total = { Prim.search rules };

    ghost transitive = { Prim.search rules };

    ghost congruent = { Prim.search rules };

    fn at_most(&self, other: &Count) -> bool {
        *self <= *other
    }
}

// The command: a struct of its own, since one that is generic in its integer would need that comparison's laws as a bound, and be no plainer.
#[derive(Clone, Copy, PartialEq, Eq, Debug)]
pub struct Torque {
    pub value: i16,
}

impl fmt::Display for Torque {
    ghost output = { λ t. ⟦<i16 as fmt::Display>⟧.output t.value };

    ghost styled_output = { λ t. ⟦<i16 as fmt::Display>⟧.styled_output t.value };

    fn fmt<W: fmt::Write>(&self, f: &mut fmt::Formatter<W>) -> fmt::Result {
        let torque = self.value;
        torque.fmt(f)
    }
}

impl Value for Torque {
    ghost Meaning = { ℤ };

    ghost means = { λ t. t.value };

    ghost alike = { same_torque };

    ghost sameness = { Prim.search rules };

    fn same(&self, other: &Torque) -> bool
        ensures answer { result ≡ same_torque self.now other.now }
        ensures equal { T result → self.now ≡ other.now }
    {
        *other == *self
    }
}

#[derive(Clone, Copy)]
pub struct Wheel;

impl Application for Wheel {
    type Reading = Count;

    type State = Count;

    type Command = Torque;

    ghost stepped = { λ _ s x. record { value = turned s.value x.value } };

    ghost commanded = { λ _ s. record { value = torque_of s.value } };

    ghost stepping = { Prim.search rules };

    ghost commanding = { Prim.search rules };

    fn step(&self, state: &Count, reading: &Count) -> Count {
        Count {
            value: state.value.saturating_add(reading.value),
        }
    }

    fn command(&self, state: &Count) -> Torque {
        let torque = -(state.value / 65536);
        Torque {
            value: torque.min(32767) as i16,
        }
    }
}
