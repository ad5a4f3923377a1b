// The whole engine: seven replicas, two of them two-faced, on four sensors, one stuck and one two-faced.
#![tactic(auto)]

use crate::show::{Reading, show_row, show_vote};
use anyhow::{Result, anyhow};
use applications::wheel::{Count, Torque, Wheel};
use dispersal::Outcome;
use layers::king::PhaseKing;
use layers::layer::Layer;
use operation::perform::{operate, perform};
use operation::{Answer, Call, Progress};
use quorum::is_set;
use selections::NO_SENSOR;
use selections::mid_value::MidValue;
use std::alloc::{AllocError, Global};
use values::Entry;

const N: usize = 7;

const F: usize = 2;

const SENSORS: usize = 4;

// Places for each replica and sensor, for each two replicas, and for each two and each sensor.
const EACH: usize = N * SENSORS;

const PAIRS: usize = N * N;

const HEARD: usize = PAIRS * SENSORS;

// Replicas 5 and 6 are faulty.
const SOUND: usize = 5;

const MARKS: u16 = 0b110_0000;

// What the stuck sensor always gives.
const STUCK: i32 = 524288;

type Flown = Progress<Wheel, PhaseKing, Count, Torque>;

// What replicas 0 to 2 are told, and what the others are.
#[derive(Clone, Copy)]
struct Faces<T> {
    few: T,
    others: T,
}

impl<T: Copy> Faces<T> {
    fn to(&self, i: usize) -> T {
        if i < 3 { self.few } else { self.others }
    }
}

// A reading that all are given.
fn steady(value: i32) -> Faces<Entry<Count>> {
    let reading = Some(Count { value });
    Faces {
        few: reading,
        others: reading,
    }
}

#[derive(Clone, Copy)]
enum Ending {
    Committed,
    Abandoned,
}

// A cycle: what each sensor gives, the byte that the faulty replicas say in the agreement, and how it ends.
#[derive(Clone, Copy)]
struct Cycle {
    sensors: [Faces<Entry<Count>>; SENSORS],
    words: Faces<u8>,
    ending: Ending,
}

// The lent tables.
#[derive(Drop)]
struct Tray {
    state: [Count; N],
    own: [Entry<Count>; EACH],
    agreed: [Entry<Count>; EACH],
    run: [Count; EACH],
    accept: [bool; EACH],
    yes: [u16; EACH],
    heard: [Entry<Count>; HEARD],
    candidates: [u8; N],
    chosen: [u8; N],
}

impl Tray {
    fn new() -> Tray {
        let zero = Count { value: 0 };
        Tray {
            state: [zero; N],
            own: [None; EACH],
            agreed: [None; EACH],
            run: [zero; EACH],
            accept: [false; EACH],
            yes: [0; EACH],
            heard: [None; HEARD],
            candidates: [0; N],
            chosen: [0; N],
        }
    }

    // Makes the cluster, which looks at replica 0 before anything has come.
    fn operate(&mut self) -> Result<Flown> {
        let calls: [Call<'_, Count, Count, Torque, MidValue>; 1] = [Call::Look(0)];
        operate(
            Wheel,
            PhaseKing,
            N,
            F,
            SENSORS,
            MARKS,
            Count { value: 0 },
            &calls,
            &mut self.state,
            &mut self.own,
            &mut self.agreed,
            &mut self.run,
            &mut self.accept,
            &mut self.yes,
            &mut self.heard,
            &mut self.candidates,
            &mut self.chosen,
        )
        .map_err(|_| anyhow!("making was refused"))
    }
}

// What sensors and faulty replicas say in a cycle.
#[derive(Drop)]
struct Told {
    entries: Vec<Entry<Count>>,
    claims: Vec<Entry<Count>>,
    words: Vec<u8>,
    states: Vec<Entry<Count>>,
    commands: Vec<Entry<Torque>>,
}

impl Told {
    // A faulty replica claims to each replica what that one was given, and sends states and commands of its own.
    fn new(heap: Global, cycle: &Cycle) -> Result<Told, AllocError> {
        let entries: Vec<Entry<Count>> = (0..N)
            .flat_map(|i| cycle.sensors.iter().map(move |sensor| sensor.to(i)))
            .collect(heap)?;
        let claims = (0..N).flat_map(|_| entries.iter().copied()).collect(heap)?;
        let size = PhaseKing.size(N, F);
        Ok(Told {
            claims,
            entries,
            words: (0..size.saturating_mul(EACH))
                .map(|at| cycle.words.to(at % N))
                .collect(heap)?,
            states: vec![in heap; Some(Count { value: 7 }); PAIRS]?,
            commands: vec![in heap; Some(Torque { value: 7 }); N]?,
        })
    }
}

// Performs a cycle as one list of calls.
fn fly(from: Flown, cycle: &Cycle, told: &Told, tray: &mut Tray) -> Flown {
    let last = match cycle.ending {
        Ending::Committed => Call::Commit(&told.states, &told.commands),
        Ending::Abandoned => Call::Abandon,
    };
    let calls = [
        Call::Intake(&told.entries),
        Call::Filter(&told.claims),
        Call::Agree(&told.words),
        Call::Select(&MidValue),
        last,
    ];
    perform(
        from,
        &calls,
        &mut tray.state,
        &mut tray.own,
        &mut tray.agreed,
        &mut tray.run,
        &mut tray.accept,
        &mut tray.yes,
        &mut tray.heard,
        &mut tray.candidates,
        &mut tray.chosen,
    )
}

// What commit answered, and which sound replicas had the chosen reading.
fn show_outcome(rt: &HostRuntime, outcome: &Outcome<Torque>, tray: &Tray) -> Result<()> {
    let candidates = u16::from(outcome.candidates);
    show_row(
        rt,
        "candidates",
        (0..SENSORS).filter(|k| is_set(candidates, *k)),
    )?;
    match outcome.chosen {
        NO_SENSOR => println!(rt; "  chosen none")?,
        sensor => {
            println!(rt; "  chosen sensor {sensor}")?;
            let chosen = usize::from(sensor);
            show_row(
                rt,
                "held by",
                (0..SOUND).filter(|i| tray.accept.get(*i * SENSORS + chosen) == Some(&true)),
            )?;
            let dispersed = outcome.dispersed;
            println!(rt; "  took the dispersed state: {dispersed}")?
        }
    }
    show_vote(rt, outcome.vote)
}

// A cycle as it came out; after one that was left, the sound replicas hold the states that they had.
fn show_cycle(
    rt: &HostRuntime,
    cycle: &Cycle,
    answer: &Answer<Count, Torque>,
    tray: &Tray,
) -> Result<()> {
    let few = cycle.sensors.iter().map(|sensor| Reading(sensor.few));
    show_row(rt, "replicas 0 1 2 read", few)?;
    let others = cycle.sensors.iter().map(|sensor| Reading(sensor.others));
    show_row(rt, "replicas 3 4 read", others)?;
    match answer {
        Answer::Committed(outcome) => show_outcome(rt, outcome, tray)?,
        Answer::Refused(_) => println!(rt; "  refused")?,
        _ => println!(rt; "  abandoned")?,
    }
    show_row(rt, "states", tray.state.iter().copied().take(SOUND))
}

// The faulty replicas vouch for the two-faced sensor, then deny it; a cycle is abandoned; no sensor is fit; and they tell the few yes and the others no.
fn script() -> [Cycle; 5] {
    let two_faced = Faces {
        few: Some(Count { value: 163840 }),
        others: Some(Count { value: 6553600 }),
    };
    let silent = Faces {
        few: None,
        others: None,
    };
    let yes = Faces { few: 1, others: 1 };
    let no = Faces { few: 0, others: 0 };
    let both = Faces { few: 1, others: 0 };
    let vouched = Cycle {
        sensors: [steady(131072), steady(196608), steady(STUCK), two_faced],
        words: yes,
        ending: Ending::Committed,
    };
    [
        vouched,
        Cycle {
            words: no,
            ..vouched
        },
        Cycle {
            ending: Ending::Abandoned,
            ..vouched
        },
        Cycle {
            sensors: [silent, silent, silent, two_faced],
            words: no,
            ..vouched
        },
        Cycle {
            words: both,
            ..vouched
        },
    ]
}

// Flies the script from a cluster at rest.
pub fn show_engine(rt: &HostRuntime) -> Result<()> {
    println!(rt; "seven replicas, 5 and 6 two-faced; four sensors, 2 stuck and 3 two-faced")?;
    let heap = rt.alloc();
    let mut tray = Tray::new();
    let mut progress = tray.operate()?;
    if let Answer::Told(start) = progress.answer {
        println!(rt; "  replica 0 starts at {start}")?
    }
    for (number, cycle) in (1..6).zip(script().iter()) {
        println!(rt; "cycle {number}")?;
        let told = Told::new(heap, cycle)?;
        progress = fly(progress, cycle, &told, &mut tray);
        show_cycle(rt, cycle, &progress.answer, &tray)?;
    }
    Ok(())
}
