// The replicated protocol by its meaning, and the promise that sound replicas never part.
#![tactic(auto)]

ghost use Rattle.protocol.specs.Clusters.{NeverPart, semantics};

use layers::layer::Layer;
use values::{Application, Value};

// What a sound replica does at commit: no sensor is chosen; or it ran the chosen sensor, which it accepted, and its place in run is told; or any other.
#[derive(Clone, Copy)]
pub enum Turn {
    Idle,
    Ran(usize),
    Behind,
}

// Sound replicas never part, whatever the application and the layer: every run is consistent with the model. It does nothing when run; a call of it cites the theorem.
pub fn never_part<A: Application, L: Layer>()
    ensures { NeverPart (semantics A.Reading.Value A.State.Value A.Command.Value A.Application L.Layer) }
{}
