// The mid-value rule, for every kind of reading that has a total order.
ghost use Rattle.std.specs.Prelude.{◌≡◌, ℕ, ◌+◌, ◌<◌, T, length, Some, None, Decides};
ghost use Rattle.selections.specs.Choices.{candidate, no_sensor};
ghost use Rattle.selections.specs.Rules.{at_most, below, half as half_of, rank as rank_of, reached, mid_value, MidValued, Bracketed};
ghost use Rattle.selections.specs.Picks.{Picked};
ghost use Rattle.selections.specs.Middle.{mid_chooses};

use crate::{NO_SENSOR, Selection};
use quorum::count_of;
use values::entries::{Entries, presence};
use values::{Entry, Ordered};

#[derive(Clone, Copy)]
pub struct MidValue;

// Whether both entries are present, and the one's reading is at most the other's.
fn at_most<R: Ordered>(e: &Entry<R>, d: &Entry<R>) -> bool
    ensures { result ≡ at_most R.Ordered.leq e.now d.now }
{
    match (e, d) {
        (Some(x), Some(y)) => x.at_most(y),
        _ => false,
    }
}

// The sensors' entries, and half of the candidates, rounded up.
#[derive(Drop)]
struct Ranking<'a, R: Ordered> {
    readings: &'a [Entry<R>],
    half: usize,
    ghost halved: { half ≡ half_of R.Ordered.leq readings.now },
}

impl<'a, R: Ordered> Ranking<'a, R> {
    // How many readings do not exceed that of sensor k.
    fn rank(&self, k: usize) -> usize
        requires { k < length self.now.readings.now }
        ensures { result ≡ rank_of R.Ordered.leq self.now.readings.now k }
    {
        count_of(
            self.readings.len(),
            |j| at_most(&self.readings[j], &self.readings[k]),
        )
    }

    // Whether sensor k is a candidate whose reading at least half of the candidates do not exceed.
    fn is_reached(&self, k: usize) -> bool
        requires { k < length self.now.readings.now }
        ensures { result ≡ reached R.Ordered.leq self.now.readings.now k }
    {
        self.readings[k].is_some() && self.half <= self.rank(k)
    }

    // Whether sensor k takes over from the pick among the sensors below it: only with a smaller reading, so the lowest of equals stays.
    fn takes_over(&self, pick: Option<usize>, k: usize) -> bool
        requires within { k < length self.now.readings.now }
        requires picked { (p : ℕ) → pick ≡ Some p → p < length self.now.readings.now }
        ensures { Decides result (T (reached R.Ordered.leq self.now.readings.now k) × ((p : ℕ) → pick ≡ Some p → T (below R.Ordered.leq self.now.readings.now p k) → ⊥)) }
    {
        if !self.is_reached(k) {
            return false;
        }
        match pick {
            None => true,
            Some(p) => !at_most(&self.readings[p], &self.readings[k]),
        }
    }

    // The pick among all sensors.
    fn pick(&self) -> Option<usize>
        ensures { Picked R.Ordered.leq self.now.readings.now (length self.now.readings.now) result }
    {
        let mut pick = None;
        for k in 0..self.readings.len() {
            if self.takes_over(pick, k) {
                pick = Some(k);
            }
        }
        pick
    }
}

// Among m candidates the smallest reading that at least half of m, rounded up, do not exceed; of equal readings the lowest sensor.
impl<R: Ordered> Selection<R> for MidValue {
    ghost choice = { λ _. mid_value R.Ordered.leq };

    ghost chooses = { λ s. mid_chooses R.Value.means R.Ordered.leq R.Ordered.total R.Ordered.transitive R.Ordered.congruent };

    fn choose(&self, readings: &[Entry<R>]) -> u8
        requires { length readings.now < no_sensor }
        ensures value { result ≡ mid_value R.Ordered.leq readings.now }
        ensures rule { (k : ℕ) → T (candidate readings.now k) → MidValued R.Ordered.leq readings.now result }
        ensures bracketed { (k : ℕ) → T (candidate readings.now k) → Bracketed R.Ordered.leq readings.now result }
    {
        let ranking = Ranking {
            readings,
            half: (presence(&readings) + 1) / 2,
        };
        match ranking.pick() {
            Some(k) => k as u8,
            None => NO_SENSOR,
        }
    }
}
