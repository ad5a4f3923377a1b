// Commit: the states go on, and the commands are voted on.
ghost use Rattle.protocol.specs.Setup.{lent};
ghost use Rattle.protocol.specs.Clusters.{semantics};
ghost use Rattle.cluster.specs.Answers.{CommitAnswers};

use crate::stages::Chosen;
use crate::{Cluster, Committed, Refused};
use dispersal::close;
use layers::layer::Layer;
use protocol::never_part;
use values::{Application, Entry, Value};

impl<A: Application, L: Layer> Cluster<A, L, Chosen> {
    // Closes the cycle: what faulty j says to i of its state stands at place j * n + i of `states`, and what it commands at place j of `commands`.
    pub fn commit(
        self,
        states: &[Entry<A::State>],
        commands: &[Entry<A::Command>],
        state: &mut [A::State],
        own: &[Entry<A::Reading>],
        agreed: &[Entry<A::Reading>],
        run: &[A::State],
        accept: &[bool],
        yes: &[u16],
        heard: &[Entry<A::Reading>],
        candidates: &[u8],
        chosen: &[u8],
    ) -> Result<Committed<A, L, A::Command>, Refused<Cluster<A, L, Chosen>>>
        ensures { CommitAnswers (semantics A.Reading.Value A.State.Value A.Command.Value A.Application L.Layer) self states.now commands.now
            (lent state.old own.now agreed.now run.now accept.now yes.now heard.now candidates.now chosen.now)
            (lent state.new own.now agreed.now run.now accept.now yes.now heard.now candidates.now chosen.now)
            result }
    {
        never_part::<A, L>();
        let closed = close(
            &self.parameters,
            &self.app,
            states,
            commands,
            state,
            own,
            agreed,
            run,
            accept,
            yes,
            heard,
            candidates,
            chosen,
        );
        match closed {
            Ok(outcome) => Ok(Committed {
                cluster: self.at(),
                outcome,
            }),
            Err(refusal) => Err(Refused {
                cluster: self,
                refusal,
            }),
        }
    }
}
