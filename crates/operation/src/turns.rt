// One call on a cluster at each stage, a function for each, since one match over stage and call would pass forty lines; each table is a parameter of its own, by a rule of the project.
ghost use Rattle.protocol.specs.Setup.{lent, sizes, rest, taken_in, filtered, agreed as agreement, chosen as choice};
ghost use Rattle.protocol.specs.Clusters.{semantics};
ghost use Rattle.cluster.specs.Answers.{kept_by, here};
ghost use Rattle.operation.specs.Calls.{answer_of, asked, standing, Goes, Passed};

use crate::{Answer, AnyStage, Call, Progress};
use cluster::stages::{Agreed, Chosen, Filtered, Rest, TakenIn};
use cluster::{Cluster, Committed, Refused};
use layers::layer::Layer;
use selections::Selection;
use values::{Application, Entry, Value};

// Where a stage leaves the cluster: ahead where it was accepted, and back where it stood where it was refused.
fn passed<A, L, G, H, S, C, F, E>(
    answered: Result<Cluster<A, L, H>, Refused<Cluster<A, L, G>>>,
    ahead: F,
    back: E,
) -> Progress<A, L, S, C>
where
    F: FnOnce(Cluster<A, L, H>) -> AnyStage<A, L> + Drop,
    E: FnOnce(Cluster<A, L, G>) -> AnyStage<A, L> + Drop,
    requires ahead { F.IsAlwaysCallable ahead }
    requires back { E.IsAlwaysCallable back }
    ensures { Passed (F.post ahead) (E.post back) answered result }
{
    match answered {
        Ok(cluster) => Progress {
            stage: ahead(cluster),
            answer: Answer::Nothing,
        },
        Err(Refused { cluster, refusal }) => Progress {
            stage: back(cluster),
            answer: Answer::Refused(refusal),
        },
    }
}

// At rest: an intake or a look.
pub(crate) fn at_rest<A: Application, L: Layer, Z: Selection<A::Reading>>(
    cluster: Cluster<A, L, Rest>,
    last: Answer<A::State, A::Command>,
    call: &Call<'_, A::Reading, A::State, A::Command, Z>,
    state: &mut [A::State],
    own: &mut [Entry<A::Reading>],
    agreed: &mut [Entry<A::Reading>],
    run: &mut [A::State],
    accept: &mut [bool],
    yes: &mut [u16],
    heard: &mut [Entry<A::Reading>],
    candidates: &mut [u8],
    chosen: &mut [u8],
) -> Progress<A, L, A::State, A::Command>
    ensures { Goes (semantics A.Reading.Value A.State.Value A.Command.Value A.Application L.Layer) (asked Z.Selection.choice (sizes (lent state.old own.old agreed.old run.old accept.old yes.old heard.old candidates.old chosen.old)) call.now)
        (here (kept_by cluster) rest (lent state.old own.old agreed.old run.old accept.old yes.old heard.old candidates.old chosen.old) (answer_of last))
        (standing result (lent state.new own.new agreed.new run.new accept.new yes.new heard.new candidates.new chosen.new)) }
{
    match call {
        Call::Intake(entries) => passed(
            cluster.intake(
                entries, state, own, agreed, run, accept, yes, heard, candidates, chosen,
            ),
            AnyStage::TakenIn,
            AnyStage::Rest,
        ),
        Call::Look(i) => match cluster.look(
            *i, state, own, agreed, run, accept, yes, heard, candidates, chosen,
        ) {
            Ok(seen) => Progress {
                stage: AnyStage::Rest(cluster),
                answer: Answer::Told(seen),
            },
            Err(refusal) => Progress {
                stage: AnyStage::Rest(cluster),
                answer: Answer::Refused(refusal),
            },
        },
        _ => Progress {
            stage: AnyStage::Rest(cluster),
            answer: last,
        },
    }
}

// Taken in: a filter, or the cycle is left.
pub(crate) fn when_taken_in<A: Application, L: Layer, Z: Selection<A::Reading>>(
    cluster: Cluster<A, L, TakenIn>,
    last: Answer<A::State, A::Command>,
    call: &Call<'_, A::Reading, A::State, A::Command, Z>,
    state: &mut [A::State],
    own: &mut [Entry<A::Reading>],
    agreed: &mut [Entry<A::Reading>],
    run: &mut [A::State],
    accept: &mut [bool],
    yes: &mut [u16],
    heard: &mut [Entry<A::Reading>],
    candidates: &mut [u8],
    chosen: &mut [u8],
) -> Progress<A, L, A::State, A::Command>
    ensures { Goes (semantics A.Reading.Value A.State.Value A.Command.Value A.Application L.Layer) (asked Z.Selection.choice (sizes (lent state.old own.old agreed.old run.old accept.old yes.old heard.old candidates.old chosen.old)) call.now)
        (here (kept_by cluster) taken_in (lent state.old own.old agreed.old run.old accept.old yes.old heard.old candidates.old chosen.old) (answer_of last))
        (standing result (lent state.new own.new agreed.new run.new accept.new yes.new heard.new candidates.new chosen.new)) }
{
    match call {
        Call::Filter(claims) => passed(
            cluster.filter(
                claims, state, own, agreed, run, accept, yes, heard, candidates, chosen,
            ),
            AnyStage::Filtered,
            AnyStage::TakenIn,
        ),
        Call::Abandon => Progress {
            stage: AnyStage::Rest(cluster.abandon()),
            answer: Answer::Nothing,
        },
        _ => Progress {
            stage: AnyStage::TakenIn(cluster),
            answer: last,
        },
    }
}

// Filtered: an agree, or the cycle is left.
pub(crate) fn when_filtered<A: Application, L: Layer, Z: Selection<A::Reading>>(
    cluster: Cluster<A, L, Filtered>,
    last: Answer<A::State, A::Command>,
    call: &Call<'_, A::Reading, A::State, A::Command, Z>,
    state: &mut [A::State],
    own: &mut [Entry<A::Reading>],
    agreed: &mut [Entry<A::Reading>],
    run: &mut [A::State],
    accept: &mut [bool],
    yes: &mut [u16],
    heard: &mut [Entry<A::Reading>],
    candidates: &mut [u8],
    chosen: &mut [u8],
) -> Progress<A, L, A::State, A::Command>
    ensures { Goes (semantics A.Reading.Value A.State.Value A.Command.Value A.Application L.Layer) (asked Z.Selection.choice (sizes (lent state.old own.old agreed.old run.old accept.old yes.old heard.old candidates.old chosen.old)) call.now)
        (here (kept_by cluster) filtered (lent state.old own.old agreed.old run.old accept.old yes.old heard.old candidates.old chosen.old) (answer_of last))
        (standing result (lent state.new own.new agreed.new run.new accept.new yes.new heard.new candidates.new chosen.new)) }
{
    match call {
        Call::Agree(words) => passed(
            cluster.agree(
                words, state, own, agreed, run, accept, yes, heard, candidates, chosen,
            ),
            AnyStage::Agreed,
            AnyStage::Filtered,
        ),
        Call::Abandon => Progress {
            stage: AnyStage::Rest(cluster.abandon()),
            answer: Answer::Nothing,
        },
        _ => Progress {
            stage: AnyStage::Filtered(cluster),
            answer: last,
        },
    }
}

// Agreed: a select, or the cycle is left.
pub(crate) fn when_agreed<A: Application, L: Layer, Z: Selection<A::Reading>>(
    cluster: Cluster<A, L, Agreed>,
    last: Answer<A::State, A::Command>,
    call: &Call<'_, A::Reading, A::State, A::Command, Z>,
    state: &mut [A::State],
    own: &mut [Entry<A::Reading>],
    agreed: &mut [Entry<A::Reading>],
    run: &mut [A::State],
    accept: &mut [bool],
    yes: &mut [u16],
    heard: &mut [Entry<A::Reading>],
    candidates: &mut [u8],
    chosen: &mut [u8],
) -> Progress<A, L, A::State, A::Command>
    ensures { Goes (semantics A.Reading.Value A.State.Value A.Command.Value A.Application L.Layer) (asked Z.Selection.choice (sizes (lent state.old own.old agreed.old run.old accept.old yes.old heard.old candidates.old chosen.old)) call.now)
        (here (kept_by cluster) agreement (lent state.old own.old agreed.old run.old accept.old yes.old heard.old candidates.old chosen.old) (answer_of last))
        (standing result (lent state.new own.new agreed.new run.new accept.new yes.new heard.new candidates.new chosen.new)) }
{
    match call {
        Call::Select(selection) => passed(
            cluster.select(
                *selection, state, own, agreed, run, accept, yes, heard, candidates, chosen,
            ),
            AnyStage::Chosen,
            AnyStage::Agreed,
        ),
        Call::Abandon => Progress {
            stage: AnyStage::Rest(cluster.abandon()),
            answer: Answer::Nothing,
        },
        _ => Progress {
            stage: AnyStage::Agreed(cluster),
            answer: last,
        },
    }
}

// Chosen: a commit, or the cycle is left.
pub(crate) fn when_chosen<A: Application, L: Layer, Z: Selection<A::Reading>>(
    cluster: Cluster<A, L, Chosen>,
    last: Answer<A::State, A::Command>,
    call: &Call<'_, A::Reading, A::State, A::Command, Z>,
    state: &mut [A::State],
    own: &mut [Entry<A::Reading>],
    agreed: &mut [Entry<A::Reading>],
    run: &mut [A::State],
    accept: &mut [bool],
    yes: &mut [u16],
    heard: &mut [Entry<A::Reading>],
    candidates: &mut [u8],
    chosen: &mut [u8],
) -> Progress<A, L, A::State, A::Command>
    ensures { Goes (semantics A.Reading.Value A.State.Value A.Command.Value A.Application L.Layer) (asked Z.Selection.choice (sizes (lent state.old own.old agreed.old run.old accept.old yes.old heard.old candidates.old chosen.old)) call.now)
        (here (kept_by cluster) choice (lent state.old own.old agreed.old run.old accept.old yes.old heard.old candidates.old chosen.old) (answer_of last))
        (standing result (lent state.new own.new agreed.new run.new accept.new yes.new heard.new candidates.new chosen.new)) }
{
    match call {
        Call::Commit(states, commands) => match cluster.commit(
            states, commands, state, own, agreed, run, accept, yes, heard, candidates, chosen,
        ) {
            Ok(Committed { cluster, outcome }) => Progress {
                stage: AnyStage::Rest(cluster),
                answer: Answer::Committed(outcome),
            },
            Err(Refused { cluster, refusal }) => Progress {
                stage: AnyStage::Chosen(cluster),
                answer: Answer::Refused(refusal),
            },
        },
        Call::Abandon => Progress {
            stage: AnyStage::Rest(cluster.abandon()),
            answer: Answer::Nothing,
        },
        _ => Progress {
            stage: AnyStage::Chosen(cluster),
            answer: last,
        },
    }
}
