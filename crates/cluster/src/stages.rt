// The stages of a cycle, as types.
ghost use Rattle.std.specs.Prelude.{◌≡◌, refl};
ghost use Rattle.protocol.specs.Setup.{Stage as StageOf, rest, taken_in, filtered, agreed as agreement, chosen as choice};
ghost use Rattle.cluster.specs.Stages.{Inside};

// What a cluster can be at.
pub trait Stage {
    ghost stage: { StageOf };
}

// A stage inside a cycle, which can be left.
pub trait Open: Stage {
    ghost open: { Inside Self.Stage.stage };
}

// No cycle is open.
#[derive(Clone, Copy)]
pub struct Rest;

// Each sound replica has its own entries.
#[derive(Clone, Copy)]
pub struct TakenIn;

// Each sound replica knows which of its own entries it accepts.
#[derive(Clone, Copy)]
pub struct Filtered;

// The sound replicas have agreed on the candidates and their readings.
#[derive(Clone, Copy)]
pub struct Agreed;

// One candidate is chosen.
#[derive(Clone, Copy)]
pub struct Chosen;

impl Stage for Rest {
    ghost stage = { rest };
}

impl Stage for TakenIn {
    ghost stage = { taken_in };
}

impl Open for TakenIn {
    ghost open = { refl };
}

impl Stage for Filtered {
    ghost stage = { filtered };
}

impl Open for Filtered {
    ghost open = { refl };
}

impl Stage for Agreed {
    ghost stage = { agreement };
}

impl Open for Agreed {
    ghost open = { refl };
}

impl Stage for Chosen {
    ghost stage = { choice };
}

impl Open for Chosen {
    ghost open = { refl };
}
