// Processors that each run the wheel, and the vote on what they send.
ghost use Rattle.std.specs.Prelude.{◌≡◌, ◌<◌, map, length, Some, None};
ghost use Rattle.values.specs.Entries.{entry_at};
ghost use Rattle.applications.specs.Wheel.{torque_of};
ghost use Rattle.applications.specs.declared.wheel.Count.{Count};
ghost use Rattle.applications.specs.declared.wheel.Torque.{Torque};
ghost use Rattle.demo.specs.Processors.{sent, sent_at, taken, chosen_of, reading_of, Hold, MostSound, VotedOn, CarriedOn};

use applications::wheel::{Count, Torque, Wheel};
use selections::Selection;
use selections::mid_value::MidValue;
use values::entries::{Entries, entry_at, majority};
use values::{Application, Entry};

// What a lying processor sends, whatever its state.
const LIE: i16 = 7;

#[derive(Clone, Copy)]
pub struct Processor {
    pub state: Count,
    pub lies: bool,
}

impl Processor {
    // Steps the state by the chosen reading, if there is one.
    pub fn take(&mut self, reading: Entry<Count>)
        ensures { self.new ≡ taken reading self.old }
    {
        if let Some(x) = reading {
            self.state = Wheel.step(&self.state, &x);
        }
    }

    // The command that it sends.
    pub fn send(&self) -> Torque
        ensures { result ≡ sent self.now }
    {
        if self.lies {
            Torque { value: LIE }
        } else {
            Wheel.command(&self.state)
        }
    }
}

// What the processors send, read where it arises and not copied together.
#[derive(Drop)]
struct Sent<'a> {
    processors: &'a [Processor],
}

impl<'a> Entries for Sent<'a> {
    type Item = Torque;

    ghost size = { λ s. length s.processors.now };

    ghost entry = { λ s. sent_at s.processors.now };

    fn len(&self) -> usize {
        self.processors.len()
    }

    fn at(&self, i: usize) -> Entry<Torque> {
        Some(self.processors[i].send())
    }
}

// The majority of what the processors send: where most are sound and hold one state, its command, whatever the others send.
pub fn vote(processors: &[Processor]) -> Entry<Torque>
    ensures voted { VotedOn processors.now result }
    ensures sound { (s : Count) → Hold processors.now s → MostSound processors.now → result ≡ Some record { value = torque_of s.value } }
{
    majority(&Sent { processors })
}

// Every processor takes the reading.
fn take_all(processors: &mut [Processor], reading: Entry<Count>)
    ensures { processors.new ≡ map (taken reading) processors.old }
{
    for p in processors.iter_mut() {
        p.take(reading);
    }
}

// What a cycle ends with; the chosen sensor as the selection answers it, `NO_SENSOR` for none.
#[derive(Clone, Copy)]
pub struct Outcome {
    pub chosen: u8,
    pub vote: Entry<Torque>,
}

// One cycle: chooses a sensor by the mid-value, steps every processor by its reading, and votes.
pub fn cycle(processors: &mut [Processor], readings: &[Entry<Count>; 3]) -> Outcome
    ensures chosen { result.chosen ≡ chosen_of readings.now }
    ensures moved { processors.new ≡ map (taken (reading_of readings.now)) processors.old }
    ensures voted { VotedOn processors.new result.vote }
    ensures carried { (s : Count) → Hold processors.old s → MostSound processors.old → CarriedOn readings.now processors.new result.vote s }
{
    let chosen = MidValue.choose(readings);
    take_all(processors, entry_at(readings, usize::from(chosen)));
    Outcome {
        chosen,
        vote: vote(processors),
    }
}
