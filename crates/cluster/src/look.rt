// Look: one sound replica's state, at rest.
ghost use Rattle.protocol.specs.Setup.{lent};
ghost use Rattle.protocol.specs.Clusters.{semantics};
ghost use Rattle.cluster.specs.Answers.{LookAnswers};

use crate::Cluster;
use crate::stages::Rest;
use layers::layer::Layer;
use protocol::never_part;
use questions::{Refusal, Sizes};
use values::{Application, Entry, Value};

impl<A: Application, L: Layer> Cluster<A, L, Rest> {
    // Tells the state of replica i.
    pub fn look(
        &self,
        i: usize,
        state: &[A::State],
        own: &[Entry<A::Reading>],
        agreed: &[Entry<A::Reading>],
        run: &[A::State],
        accept: &[bool],
        yes: &[u16],
        heard: &[Entry<A::Reading>],
        candidates: &[u8],
        chosen: &[u8],
    ) -> Result<A::State, Refusal>
        ensures { LookAnswers (semantics A.Reading.Value A.State.Value A.Command.Value A.Application L.Layer) self.now i
            (lent state.now own.now agreed.now run.now accept.now yes.now heard.now candidates.now chosen.now)
            result }
    {
        never_part::<A, L>();
        let sizes = Sizes::of(
            state, own, agreed, run, accept, yes, heard, candidates, chosen,
        );
        self.parameters.ask_look(sizes, i)?;
        Ok(state[i])
    }
}
