// Lists of calls, performed one after another on one cluster.
#![tactic(auto)]

use cluster::Cluster;
use cluster::stages::{Agreed, Chosen, Filtered, Rest, TakenIn};
use dispersal::Outcome;
use questions::Refusal;
use values::Entry;

pub mod perform;
mod turns;

// What a call is given beside the tables.
#[derive(Drop)]
pub enum Call<'a, R, S, C, Z> {
    Intake(&'a [Entry<R>]),
    Filter(&'a [Entry<R>]),
    Agree(&'a [u8]),
    Select(&'a Z),
    Commit(&'a [Entry<S>], &'a [Entry<C>]),
    Abandon,
    Look(usize),
}

// A cluster at whichever stage.
#[derive(Drop)]
pub enum AnyStage<A, L> {
    Rest(Cluster<A, L, Rest>),
    TakenIn(Cluster<A, L, TakenIn>),
    Filtered(Cluster<A, L, Filtered>),
    Agreed(Cluster<A, L, Agreed>),
    Chosen(Cluster<A, L, Chosen>),
}

// What a call answered: one enum, since a `Result` of an `Option` of the two that tell something reads no plainer.
#[derive(Clone, Copy)]
pub enum Answer<S, C> {
    Nothing,
    Refused(Refusal),
    Told(S),
    Committed(Outcome<C>),
}

// Where a list of calls has come to: the cluster at its stage, and what the last call answered.
#[derive(Drop)]
pub struct Progress<A, L, S, C> {
    pub stage: AnyStage<A, L>,
    pub answer: Answer<S, C>,
}
