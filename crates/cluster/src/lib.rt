// The cluster: a type for each stage, and the calls that lead from one to the next; each table is a parameter of its own, by a rule of the project.
#![tactic(auto)]

use dispersal::Outcome;
use questions::Parameters;
pub use questions::Refusal;
use stages::Rest;
use std::marker::PhantomData;

pub mod abandon;
pub mod agree;
pub mod commit;
mod deliver;
pub mod filter;
pub mod intake;
pub mod look;
pub mod making;
mod mask;
mod moves;
mod row;
pub mod select;
pub mod stages;
mod writing;

// A cluster at a stage, and what it keeps for life: its numbers, the application and the layer.
#[derive(Drop)]
pub struct Cluster<A, L, G> {
    parameters: Parameters,
    app: A,
    layer: L,
    stage: PhantomData<G>,
}

// A refused call gives the cluster back.
#[derive(Drop)]
pub struct Refused<T> {
    pub cluster: T,
    pub refusal: Refusal,
}

// A refused making gives the application and the layer back.
#[derive(Drop)]
pub struct Unmade<A, L> {
    pub app: A,
    pub layer: L,
    pub refusal: Refusal,
}

// A committed cycle: the cluster at rest, and what came of it.
#[derive(Drop)]
pub struct Committed<A, L, C> {
    pub cluster: Cluster<A, L, Rest>,
    pub outcome: Outcome<C>,
}
