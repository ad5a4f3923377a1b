// A box that makes the engine's calls itself, one by one: a control cycle either commits or is left, and the cluster is at rest again; each table is a parameter of its own, by a rule of the project.
#![tactic(auto)]

ghost use Rattle.std.specs.Prelude.{◌≡◌};
ghost use Rattle.protocol.specs.Setup.{lent};
ghost use Rattle.protocol.specs.Clusters.{semantics};
ghost use Rattle.cluster.specs.Answers.{kept_by, Abandoned};
ghost use Rattle.autopilot.specs.Cycles.{Flies};

use cluster::stages::{Open, Rest};
use cluster::{Cluster, Committed, Refused};
use layers::layer::Layer;
use selections::Selection;
use values::{Application, Entry, Value};

// A call inside a cycle was refused, so the cycle is left.
fn left<A: Application, L: Layer, G: Open>(
    refused: Refused<Cluster<A, L, G>>,
) -> Refused<Cluster<A, L, Rest>>
    ensures why { result.refusal ≡ refused.refusal }
    ensures at_rest { Abandoned (semantics A.Reading.Value A.State.Value A.Command.Value A.Application L.Layer) G.Stage.stage (kept_by refused.cluster) (kept_by result.cluster) }
{
    let Refused { cluster, refusal } = refused;
    Refused {
        cluster: cluster.abandon(),
        refusal,
    }
}

// One control cycle, from the sensors' entries to the vote.
pub fn fly<A: Application, L: Layer, Z: Selection<A::Reading>>(
    cluster: Cluster<A, L, Rest>,
    selection: &Z,
    entries: &[Entry<A::Reading>],
    claims: &[Entry<A::Reading>],
    words: &[u8],
    states: &[Entry<A::State>],
    commands: &[Entry<A::Command>],
    state: &mut [A::State],
    own: &mut [Entry<A::Reading>],
    agreed: &mut [Entry<A::Reading>],
    run: &mut [A::State],
    accept: &mut [bool],
    yes: &mut [u16],
    heard: &mut [Entry<A::Reading>],
    candidates: &mut [u8],
    chosen: &mut [u8],
) -> Result<Committed<A, L, A::Command>, Refused<Cluster<A, L, Rest>>>
    ensures { Flies (semantics A.Reading.Value A.State.Value A.Command.Value A.Application L.Layer) cluster (Z.Selection.choice selection.now) entries.now claims.now words.now states.now commands.now
        (lent state.old own.old agreed.old run.old accept.old yes.old heard.old candidates.old chosen.old)
        (lent state.new own.new agreed.new run.new accept.new yes.new heard.new candidates.new chosen.new) result }
{
    let taken_in = cluster.intake(
        entries, state, own, agreed, run, accept, yes, heard, candidates, chosen,
    )?;
    let filtered = taken_in
        .filter(
            claims, state, own, agreed, run, accept, yes, heard, candidates, chosen,
        )
        .map_err(left)?;
    let decided = filtered
        .agree(
            words, state, own, agreed, run, accept, yes, heard, candidates, chosen,
        )
        .map_err(left)?;
    let picked = decided
        .select(
            selection, state, own, agreed, run, accept, yes, heard, candidates, chosen,
        )
        .map_err(left)?;
    let committed = picked
        .commit(
            states, commands, state, own, agreed, run, accept, yes, heard, candidates, chosen,
        )
        .map_err(left)?;
    Ok(committed)
}
