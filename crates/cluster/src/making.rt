// Making: the questions, and the starting state in all places.
ghost use Rattle.std.specs.Prelude.{◌≡◌, ℕ, ◌<◌, length, slice_index_or};
ghost use Rattle.protocol.specs.Clusters.{semantics};
ghost use Rattle.protocol.specs.Setup.{lent};
ghost use Rattle.questions.specs.Lengths.{sizes_of};
ghost use Rattle.cluster.specs.Answers.{MakingAnswer, MakeAnswers};

use crate::stages::Rest;
use crate::{Cluster, Unmade};
use layers::layer::Layer;
use protocol::never_part;
use questions::{Parameters, Refusal, Sizes};
use std::marker::PhantomData;
use values::{Application, Entry, Value};

// Writes the state to every place; the slice's own `fill` asks that a clone cannot fail, which no bound here says.
fn write_start<S: Value>(start: S, state: &mut [S])
    ensures { (i : ℕ) → i < length state.old → (d : S) → slice_index_or state.new i d ≡ start }
{
    for s in state.iter_mut() {
        *s = start;
    }
}

// The questions of making: the numbers, and then the tables.
fn ask_making(
    n: usize,
    f: usize,
    sensors: usize,
    marks: u16,
    sizes: Sizes,
) -> Result<Parameters, Refusal>
    ensures { MakingAnswer n f sensors marks (sizes_of sizes) result }
{
    let parameters = Parameters::new(n, f, sensors, marks)?;
    parameters.ask_tables(sizes)?;
    Ok(parameters)
}

impl<A: Application, L: Layer> Cluster<A, L, Rest> {
    // Makes a cluster at rest; the other tables are only asked for their sizes.
    pub fn make(
        app: A,
        layer: L,
        n: usize,
        f: usize,
        sensors: usize,
        marks: u16,
        start: A::State,
        state: &mut [A::State],
        own: &[Entry<A::Reading>],
        agreed: &[Entry<A::Reading>],
        run: &[A::State],
        accept: &[bool],
        yes: &[u16],
        heard: &[Entry<A::Reading>],
        candidates: &[u8],
        chosen: &[u8],
    ) -> Result<Cluster<A, L, Rest>, Unmade<A, L>>
        ensures { MakeAnswers (semantics A.Reading.Value A.State.Value A.Command.Value A.Application L.Layer) record { n = n; f = f; sensors = sensors; marks = marks; app = app; layer = layer } start
            (lent state.old own.now agreed.now run.now accept.now yes.now heard.now candidates.now chosen.now)
            (lent state.new own.now agreed.now run.now accept.now yes.now heard.now candidates.now chosen.now)
            result }
    {
        never_part::<A, L>();
        let sizes = Sizes::of(
            state, own, agreed, run, accept, yes, heard, candidates, chosen,
        );
        match ask_making(n, f, sensors, marks, sizes) {
            Ok(parameters) => {
                write_start(start, state);
                Ok(Cluster {
                    parameters,
                    app,
                    layer,
                    stage: PhantomData,
                })
            }
            Err(refusal) => Err(Unmade {
                app,
                layer,
                refusal,
            }),
        }
    }
}
