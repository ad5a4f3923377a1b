// A list of calls, performed in its order. Each table is a parameter of its own, by a rule of the project.
ghost use Rattle.protocol.specs.Setup.{lent, sizes};
ghost use Rattle.protocol.specs.Clusters.{semantics};
ghost use Rattle.operation.specs.Calls.{asked, standing, Goes, Performs, OperateAnswers};

use crate::turns::{at_rest, when_agreed, when_chosen, when_filtered, when_taken_in};
use crate::{Answer, AnyStage, Call, Progress};
use cluster::{Cluster, Unmade};
use layers::layer::Layer;
use protocol::never_part;
use selections::Selection;
use values::{Application, Entry, Value};

// One call on a cluster at whichever stage: a `match`, since stages and calls are closed, and a table of functions no plainer.
fn turn<A: Application, L: Layer, Z: Selection<A::Reading>>(
    from: Progress<A, L, A::State, A::Command>,
    call: &Call<'_, A::Reading, A::State, A::Command, Z>,
    state: &mut [A::State],
    own: &mut [Entry<A::Reading>],
    agreed: &mut [Entry<A::Reading>],
    run: &mut [A::State],
    accept: &mut [bool],
    yes: &mut [u16],
    heard: &mut [Entry<A::Reading>],
    candidates: &mut [u8],
    chosen: &mut [u8],
) -> Progress<A, L, A::State, A::Command>
    ensures { Goes (semantics A.Reading.Value A.State.Value A.Command.Value A.Application L.Layer) (asked Z.Selection.choice (sizes (lent state.old own.old agreed.old run.old accept.old yes.old heard.old candidates.old chosen.old)) call.now)
        (standing from (lent state.old own.old agreed.old run.old accept.old yes.old heard.old candidates.old chosen.old))
        (standing result (lent state.new own.new agreed.new run.new accept.new yes.new heard.new candidates.new chosen.new)) }
{
    let Progress { stage, answer } = from;
    match stage {
        AnyStage::Rest(cluster) => at_rest(
            cluster, answer, call, state, own, agreed, run, accept, yes, heard, candidates, chosen,
        ),
        AnyStage::TakenIn(cluster) => when_taken_in(
            cluster, answer, call, state, own, agreed, run, accept, yes, heard, candidates, chosen,
        ),
        AnyStage::Filtered(cluster) => when_filtered(
            cluster, answer, call, state, own, agreed, run, accept, yes, heard, candidates, chosen,
        ),
        AnyStage::Agreed(cluster) => when_agreed(
            cluster, answer, call, state, own, agreed, run, accept, yes, heard, candidates, chosen,
        ),
        AnyStage::Chosen(cluster) => when_chosen(
            cluster, answer, call, state, own, agreed, run, accept, yes, heard, candidates, chosen,
        ),
    }
}

// Performs the calls in their order on the lent tables; one out of turn is passed over.
pub fn perform<A: Application, L: Layer, Z: Selection<A::Reading>>(
    from: Progress<A, L, A::State, A::Command>,
    calls: &[Call<'_, A::Reading, A::State, A::Command, Z>],
    state: &mut [A::State],
    own: &mut [Entry<A::Reading>],
    agreed: &mut [Entry<A::Reading>],
    run: &mut [A::State],
    accept: &mut [bool],
    yes: &mut [u16],
    heard: &mut [Entry<A::Reading>],
    candidates: &mut [u8],
    chosen: &mut [u8],
) -> Progress<A, L, A::State, A::Command>
    ensures { Performs (semantics A.Reading.Value A.State.Value A.Command.Value A.Application L.Layer) Z.Selection.choice from (lent state.old own.old agreed.old run.old accept.old yes.old heard.old candidates.old chosen.old)
        calls.now result (lent state.new own.new agreed.new run.new accept.new yes.new heard.new candidates.new chosen.new) }
{
    never_part::<A, L>();
    let mut progress = from;
    for call in calls {
        progress = turn(
            progress, call, state, own, agreed, run, accept, yes, heard, candidates, chosen,
        );
    }
    progress
}

// Makes a cluster on the lent tables and performs the calls in their order; one out of turn is passed over.
pub fn operate<A: Application, L: Layer, Z: Selection<A::Reading>>(
    app: A,
    layer: L,
    n: usize,
    f: usize,
    sensors: usize,
    marks: u16,
    start: A::State,
    calls: &[Call<'_, A::Reading, A::State, A::Command, Z>],
    state: &mut [A::State],
    own: &mut [Entry<A::Reading>],
    agreed: &mut [Entry<A::Reading>],
    run: &mut [A::State],
    accept: &mut [bool],
    yes: &mut [u16],
    heard: &mut [Entry<A::Reading>],
    candidates: &mut [u8],
    chosen: &mut [u8],
) -> Result<Progress<A, L, A::State, A::Command>, Unmade<A, L>>
    ensures { OperateAnswers (semantics A.Reading.Value A.State.Value A.Command.Value A.Application L.Layer) Z.Selection.choice record { n = n; f = f; sensors = sensors; marks = marks; app = app; layer = layer } start
        (lent state.old own.old agreed.old run.old accept.old yes.old heard.old candidates.old chosen.old) calls.now
        (lent state.new own.new agreed.new run.new accept.new yes.new heard.new candidates.new chosen.new) result }
{
    let cluster = Cluster::make(
        app, layer, n, f, sensors, marks, start, state, own, agreed, run, accept, yes, heard,
        candidates, chosen,
    )?;
    let made = Progress {
        stage: AnyStage::Rest(cluster),
        answer: Answer::Nothing,
    };
    Ok(perform(
        made, calls, state, own, agreed, run, accept, yes, heard, candidates, chosen,
    ))
}
