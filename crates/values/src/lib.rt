// What readings, states and commands mean, entries that carry them, and the majority of entries.
#![tactic(auto)]

ghost use Rattle.std.specs.Prelude.{◌≡◌, Bool, ◌||◌, T, Decides};
ghost use Rattle.values.specs.Order.{BothWays};

pub mod entries;

// A reading, a state or a command. Two values are the same exactly when they mean the same; `PartialEq` promises no meaning, so `same` is a method of its own.
pub trait Value: Copy {
    ghost Meaning: { Type 0 };

    ghost means: { Self → Meaning };

    ghost alike: { Self → Self → Bool };

    fn same(&self, other: &Self) -> bool
        ensures { result ≡ alike self.now other.now };

    ghost sameness: { (x y : Self) → Decides (alike x y) (means x ≡ means y) };
}

// A reading with a total order: `leq x y` says that x is at most y. By a rule of the project it is no `Ord`, and its comparison promises what both ways mean.
pub trait Ordered: Value {
    ghost leq: { Self → Self → Bool };

    fn at_most(&self, other: &Self) -> bool
        ensures answer { result ≡ leq self.now other.now }
        ensures both { BothWays (T (leq self.now other.now)) (T (leq other.now self.now)) (Self.Value.means self.now ≡ Self.Value.means other.now) };

    ghost total: { (x y : Self) → T (leq x y || leq y x) };

    ghost transitive: { (x y z : Self) → T (leq x y) → T (leq y z) → T (leq x z) };

    ghost congruent: { (x y : Self) → Self.Value.means x ≡ Self.Value.means y → T (leq x y) };
}

// A control program: a reading steps its state, and a state gives its command.
pub trait Application {
    type Reading: Value;

    type State: Value;

    type Command: Value;

    ghost stepped: { Self → Self.State → Self.Reading → Self.State };

    ghost commanded: { Self → Self.State → Self.Command };

    fn step(&self, state: &Self::State, reading: &Self::Reading) -> Self::State
        ensures { Self.State.Value.means result ≡ Self.State.Value.means (stepped self.now state.now reading.now) };

    fn command(&self, state: &Self::State) -> Self::Command
        ensures { Self.Command.Value.means result ≡ Self.Command.Value.means (commanded self.now state.now) };

    ghost stepping: { (a : Self) (s t : Self.State) (x y : Self.Reading) → Self.State.Value.means s ≡ Self.State.Value.means t → Self.Reading.Value.means x ≡ Self.Reading.Value.means y → Self.State.Value.means (stepped a s x) ≡ Self.State.Value.means (stepped a t y) };

    ghost commanding: { (a : Self) (s t : Self.State) → Self.State.Value.means s ≡ Self.State.Value.means t → Self.Command.Value.means (commanded a s) ≡ Self.Command.Value.means (commanded a t) };
}

// One value of its kind, or none where it is missing.
pub type Entry<T> = Option<T>;
