// Abandon: from inside a cycle back to rest, with nothing written.
ghost use Rattle.protocol.specs.Clusters.{semantics};
ghost use Rattle.cluster.specs.Answers.{kept_by, Abandoned};

use crate::Cluster;
use crate::stages::{Open, Rest};
use layers::layer::Layer;
use protocol::never_part;
use values::{Application, Value};

impl<A: Application, L: Layer, G: Open> Cluster<A, L, G> {
    // Leaves the cycle.
    pub fn abandon(self) -> Cluster<A, L, Rest>
        ensures { Abandoned (semantics A.Reading.Value A.State.Value A.Command.Value A.Application L.Layer) G.Stage.stage (kept_by self) (kept_by result) }
    {
        never_part::<A, L>();
        self.at()
    }
}
