// The questions in their order.
ghost use Rattle.std.specs.Prelude.{◌≡◌, ◌*◌, ◌^◌, ◌<◌, ◌≤◌, not, nat_lt};
ghost use Rattle.quorum.specs.Counting.{bit};
ghost use Rattle.protocol.specs.Model.{ask, granted, tables_size};
ghost use Rattle.questions.specs.Questions.{fits, stage_verdict, look_verdict, NumbersAnswer};
ghost use Rattle.questions.specs.Refusals.{verdict_of};
ghost use Rattle.questions.specs.Lengths.{sizes_of};

use crate::{Parameters, Refusal, Sizes};
use quorum::{is_set, set_bits};

// Whether every marked number is below n.
fn marks_below(marks: u16, n: usize) -> bool
    requires { n ≤ 16 }
    ensures { result ≡ nat_lt marks (2 ^ n) }
{
    (marks as u32) < 1u32 << n
}

impl Parameters {
    // The questions of making on its numbers.
    pub fn new(n: usize, f: usize, sensors: usize, marks: u16) -> Result<Parameters, Refusal>
        ensures { NumbersAnswer n f sensors marks result }
    {
        if n < 4 || n > 16 {
            return Err(Refusal::Replicas);
        }
        if f < 1 {
            return Err(Refusal::Faults);
        }
        if f >= n || 3 * f >= n {
            return Err(Refusal::Third);
        }
        if sensors < 1 || sensors > 4 {
            return Err(Refusal::Sensors);
        }
        if !marks_below(marks, n) {
            return Err(Refusal::MarkedNumber);
        }
        if set_bits(marks) > f {
            return Err(Refusal::Marked);
        }
        Ok(Parameters {
            n,
            f,
            sensors,
            marks,
        })
    }

    // Whether replica i is sound.
    pub fn is_sound(&self, i: usize) -> bool
        ensures { not result ≡ bit self.now.marks i }
    {
        !is_set(self.marks, i)
    }

    // Whether each table has exactly its size.
    fn fits(&self, sizes: Sizes) -> bool
        ensures { result ≡ fits self.now.n self.now.sensors (sizes_of sizes) }
    {
        let each = self.n * self.sensors;
        sizes
            == Sizes {
                state: self.n,
                own: each,
                agreed: each,
                run: each,
                accept: each,
                yes: each,
                heard: self.n * each,
                candidates: self.n,
                chosen: self.n,
            }
    }

    // The question of every call: the tables.
    pub fn ask_tables(&self, sizes: Sizes) -> Result<(), Refusal>
        ensures { verdict_of result ≡ ask (fits self.now.n self.now.sensors (sizes_of sizes)) tables_size granted }
    {
        if self.fits(sizes) {
            Ok(())
        } else {
            Err(Refusal::TablesSize)
        }
    }

    // The questions of a stage: the tables, and whether what comes in has its size.
    pub fn ask_stage(&self, sizes: Sizes, input: bool) -> Result<(), Refusal>
        ensures { verdict_of result ≡ stage_verdict (fits self.now.n self.now.sensors (sizes_of sizes)) input }
    {
        self.ask_tables(sizes)?;
        if !input {
            return Err(Refusal::InputSize);
        }
        Ok(())
    }

    // The questions of a look: the tables, and whether there is such a replica and it is sound.
    pub fn ask_look(&self, sizes: Sizes, replica: usize) -> Result<(), Refusal>
        ensures { verdict_of result ≡ look_verdict (fits self.now.n self.now.sensors (sizes_of sizes)) self.now.n self.now.marks replica }
    {
        self.ask_tables(sizes)?;
        if replica >= self.n {
            return Err(Refusal::ReplicaNumber);
        }
        if !self.is_sound(replica) {
            return Err(Refusal::ReplicaFaulty);
        }
        Ok(())
    }
}
