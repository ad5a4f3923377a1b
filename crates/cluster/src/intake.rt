// Intake: each sound replica takes its own entries in, and runs the application on them.
ghost use Rattle.std.specs.Prelude.{◌≡◌, ◌+◌, ◌*◌, ◌/◌, ◌<◌, ◌≤◌, length};
ghost use Rattle.protocol.specs.Clusters.{semantics};
ghost use Rattle.protocol.specs.Setup.{lent};
ghost use Rattle.cluster.specs.Answers.{IntakeAnswers};
ghost use Rattle.protocol.specs.Tables.{Written};
ghost use Rattle.cluster.specs.Writing.{faulty_at, idle_at, Owns, Runs, stepped_by};
ghost use Rattle.values.specs.Entries.{SameEntry};

use crate::stages::{Rest, TakenIn};
use crate::writing::write_sound;
use crate::{Cluster, Refused};
use layers::layer::Layer;
use protocol::never_part;
use questions::{Parameters, Sizes};
use values::entries::entry_at;
use values::{Application, Entry, Value};

// Writes own at the places of the sound replicas.
fn write_own<R: Value>(parameters: Parameters, entries: &[Entry<R>], own: &mut [Entry<R>])
    ensures { Written (length own.old) (faulty_at parameters.marks parameters.sensors) (Owns entries.now) own.old own.new }
{
    write_sound(
        parameters,
        parameters.sensors,
        own,
        |p| entry_at(entries, p),
    );
}

// What the application makes of a state by an entry, missing where the entry is.
fn run_of<A: Application>(app: &A, state: &A::State, entry: Entry<A::Reading>) -> Entry<A::State>
    ensures { SameEntry A.State.Value.means result (stepped_by (A.Application.stepped app.now) state.now entry) }
{
    entry.map(|x| app.step(state, &x))
}

// Writes run at the places of the sound replicas whose entry is present; no other place is written, so the loop is its own.
fn write_run<A: Application>(
    parameters: Parameters,
    app: &A,
    state: &[A::State],
    entries: &[Entry<A::Reading>],
    run: &mut [A::State],
)
    requires states { length run.old ≡ length state.now * parameters.sensors }
    requires entries { length run.old ≡ length entries.now }
    ensures { Written (length run.old) (idle_at parameters.marks parameters.sensors entries.now) (Runs A.State.Value.means (A.Application.stepped app.now) parameters.sensors state.now entries.now) run.old run.new }
{
    for p in 0..run.len() {
        let i = p / parameters.sensors;
        if parameters.is_sound(i) {
            if let Some(next) = run_of(app, &state[i], entries[p]) {
                run[p] = next;
            }
        }
    }
}

impl<A: Application, L: Layer> Cluster<A, L, Rest> {
    // Takes the sensors' entries in: the entry of replica i and sensor k stands at place i * sensors + k.
    pub fn intake(
        self,
        entries: &[Entry<A::Reading>],
        state: &[A::State],
        own: &mut [Entry<A::Reading>],
        agreed: &[Entry<A::Reading>],
        run: &mut [A::State],
        accept: &[bool],
        yes: &[u16],
        heard: &[Entry<A::Reading>],
        candidates: &[u8],
        chosen: &[u8],
    ) -> Result<Cluster<A, L, TakenIn>, Refused<Cluster<A, L, Rest>>>
        ensures { IntakeAnswers (semantics A.Reading.Value A.State.Value A.Command.Value A.Application L.Layer) self entries.now
            (lent state.now own.old agreed.now run.old accept.now yes.now heard.now candidates.now chosen.now)
            (lent state.now own.new agreed.now run.new accept.now yes.now heard.now candidates.now chosen.now)
            result }
    {
        never_part::<A, L>();
        let parameters = self.parameters;
        let sizes = Sizes::of(
            state, own, agreed, run, accept, yes, heard, candidates, chosen,
        );
        let input = entries.len() == parameters.n * parameters.sensors;
        if let Err(refusal) = parameters.ask_stage(sizes, input) {
            return Err(Refused {
                cluster: self,
                refusal,
            });
        }
        write_own(parameters, entries, own);
        write_run(parameters, &self.app, state, entries, run);
        Ok(self.at())
    }
}
