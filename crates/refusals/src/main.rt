// Compares the engine's refusals with what the rules say, and prints a line for each group that agrees.
#![tactic(auto)]

use anyhow::ensure;
use applications::wheel::{Count, Wheel};
use calls::{Engine, Numbers, agree, commit, filter, intake, look, make, select};
use cluster::stages::Rest;
use layers::bus::Bus;
use std::alloc::Global;
use tray::{Part, Tray};
use trial::{Trial, accepted, refused};

mod calls;
mod tray;
mod trial;

// Four replicas, of which the last is faulty, and three sensors.
const FOUR: Numbers = Numbers {
    n: 4,
    f: 1,
    sensors: 3,
    marks: 8,
};

// Numbers that making refuses, and the number of the refusal.
const REFUSED: [(Numbers, u8); 8] = [
    (Numbers { n: 3, ..FOUR }, 1),
    (Numbers { n: 17, ..FOUR }, 1),
    (Numbers { f: 0, ..FOUR }, 2),
    (Numbers { n: 6, f: 2, ..FOUR }, 3),
    (Numbers { sensors: 0, ..FOUR }, 4),
    (Numbers { sensors: 5, ..FOUR }, 4),
    (Numbers { marks: 16, ..FOUR }, 5),
    (Numbers { marks: 12, ..FOUR }, 6),
];

// Numbers that it accepts.
const MADE: [Numbers; 2] = [FOUR, Numbers { n: 7, f: 2, ..FOUR }];

// How many numbers making refuses as it should.
fn refused_numbers(heap: Global) -> anyhow::Result<usize> {
    let mut count: usize = 0;
    for (numbers, number) in REFUSED {
        let tray = Tray::new(heap, numbers.n, numbers.sensors)?;
        refused(
            (Wheel, Bus),
            &tray,
            number,
            &|unmade, tray: &mut Tray| make(numbers, unmade, tray),
        )?;
        count = count.saturating_add(1);
    }
    Ok(count)
}

// How many numbers it accepts as it should.
fn made_numbers(heap: Global) -> anyhow::Result<usize> {
    let mut count: usize = 0;
    for numbers in MADE {
        let mut tray = Tray::new(heap, numbers.n, numbers.sensors)?;
        accepted(make(numbers, (Wheel, Bus), &mut tray))?;
        count = count.saturating_add(1);
    }
    Ok(count)
}

// Makes each of the engine's calls in its turn, from making to a look at the end of a cycle.
fn cycle(trial: &mut Trial) -> anyhow::Result<Engine<Rest>> {
    let cluster = trial.call(
        (Wheel, Bus),
        &[],
        |unmade, tray: &mut Tray| make(FOUR, unmade, tray),
    )?;
    let cluster = trial.call(cluster, &[Part::Entries], intake)?;
    let cluster = trial.call(cluster, &[Part::Claims], filter)?;
    let cluster = trial.call(cluster, &[], agree)?;
    let cluster = trial.call(cluster, &[], select)?;
    let committed = trial.call(cluster, &[Part::States, Part::Commands], commit)?;
    let (cluster, _) = trial.call(
        committed.cluster,
        &[],
        |cluster, tray: &mut Tray| look(0, cluster, tray),
    )?;
    Ok(cluster)
}

// Looks at a replica that there is not, at the faulty one, and at a sound one, whose state it tells.
fn looks(cluster: Engine<Rest>, tray: &mut Tray) -> anyhow::Result<Count> {
    let cluster = refused(
        cluster,
        tray,
        9,
        &|cluster, tray: &mut Tray| look(4, cluster, tray),
    )?;
    let cluster = refused(
        cluster,
        tray,
        10,
        &|cluster, tray: &mut Tray| look(3, cluster, tray),
    )?;
    let (_, told) = accepted(look(0, cluster, tray))?;
    Ok(told)
}

fn main(rt: HostRuntime) -> anyhow::Result<()> {
    let heap = rt.alloc();
    let refused = refused_numbers(heap)?;
    let made = made_numbers(heap)?;
    println!(rt; "making: {refused} refused, {made} made")?;
    let mut trial = Trial::new(Tray::new(heap, FOUR.n, FOUR.sensors)?);
    let cluster = cycle(&mut trial)?;
    println!(rt; "tables: {} refused 7, all as before", trial.tables)?;
    println!(rt; "input: {} refused 8, all as before", trial.input)?;
    let told = looks(cluster, &mut trial.tray)?;
    ensure!(
        told == Count { value: 12 },
        "told {told}, and the rules say 12: the start, 10, and a reading, 2"
    );
    println!(rt; "look: refused 9 and 10, and told {told}")?;
    Ok(())
}
