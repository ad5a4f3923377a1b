// Runs cycles of the whole engine over the phase king, for a tool that counts instructions from outside: `cycles 16 5 4 100` for 16 replicas, 5 of them faulty, 4 sensors and 100 cycles.
#![tactic(auto)]

ghost use Rattle.std.specs.Prelude.{◌*◌, ◌<◌, ◌≤◌};

use anyhow::anyhow;
use applications::wheel::{Count, Torque, Wheel};
use autopilot::fly;
use cluster::Cluster;
use cluster::stages::Rest;
use layers::king::PhaseKing;
use layers::layer::Layer;
use selections::mid_value::MidValue;
use std::alloc::{AllocError, Global};
use std::env;
use values::Entry;

// The numbers of a run.
#[derive(Clone, Copy)]
struct Load {
    n: usize,
    f: usize,
    sensors: usize,
    cycles: usize,
    ghost many: { n ≤ 16 },
    ghost third: { 3 * f < n },
    ghost sensed: { sensors ≤ 4 },
}

// The lent tables.
#[derive(Drop)]
struct Tray {
    state: Vec<Count>,
    own: Vec<Entry<Count>>,
    agreed: Vec<Entry<Count>>,
    run: Vec<Count>,
    accept: Vec<bool>,
    yes: Vec<u16>,
    heard: Vec<Entry<Count>>,
    candidates: Vec<u8>,
    chosen: Vec<u8>,
}

impl Tray {
    fn new(heap: Global, load: Load) -> Result<Tray, AllocError> {
        let n = load.n;
        let each = n * load.sensors;
        let zero = Count { value: 0 };
        Ok(Tray {
            state: vec![in heap; zero; n]?,
            own: vec![in heap; None; each]?,
            agreed: vec![in heap; None; each]?,
            run: vec![in heap; zero; each]?,
            accept: vec![in heap; false; each]?,
            yes: vec![in heap; 0u16; each]?,
            heard: vec![in heap; None; n * each]?,
            candidates: vec![in heap; 0u8; n]?,
            chosen: vec![in heap; 0u8; n]?,
        })
    }
}

// What sensor k gives replica i: the last sensor is two-faced, and the others are steady.
fn reading(load: Load, i: usize, k: usize) -> Count {
    let value = if k >= load.sensors.saturating_sub(1) && i % 2 == 0 {
        -65536
    } else {
        65536
    };
    Count { value }
}

// The sensors' entries, in the order of replicas and then of sensors.
fn entries_of(heap: Global, load: Load) -> Result<Vec<Entry<Count>>, AllocError> {
    (0..load.n)
        .flat_map(|i| (0..load.sensors).map(move |k| Some(reading(load, i, k))))
        .collect(heap)
}

// Words that look random, of which about half say something; `bench` has the same, since no library that both know is fit for it.
fn noise(heap: Global, size: usize) -> Result<Vec<u8>, AllocError> {
    (0..size)
        .scan(1, |seed: &mut u32, _| {
            *seed = seed.wrapping_mul(1664525).wrapping_add(1013904223);
            Some((*seed >> 29) as u8 / 2)
        })
        .collect(heap)
}

// What faulty replicas say in a cycle.
#[derive(Drop)]
struct Said {
    claims: Vec<Entry<Count>>,
    words: Vec<u8>,
    states: Vec<Entry<Count>>,
    commands: Vec<Entry<Torque>>,
}

impl Said {
    fn new(heap: Global, load: Load) -> Result<Said, AllocError> {
        let n = load.n;
        let lie = Some(Count { value: 7 });
        let size = PhaseKing.size(n, load.f);
        Ok(Said {
            claims: vec![in heap; lie; n * (n * load.sensors)]?,
            words: noise(heap, size.saturating_mul(n * load.sensors))?,
            states: vec![in heap; lie; n * n]?,
            commands: vec![in heap; Some(Torque { value: 7 }); n]?,
        })
    }
}

// Flies the cycles, and tells the last vote.
fn run(
    mut cluster: Cluster<Wheel, PhaseKing, Rest>,
    cycles: usize,
    entries: &[Entry<Count>],
    said: &Said,
    tray: &mut Tray,
) -> anyhow::Result<Entry<Torque>> {
    let mut vote = None;
    for _ in 0..cycles {
        let flown = fly(
            cluster,
            &MidValue,
            entries,
            &said.claims,
            &said.words,
            &said.states,
            &said.commands,
            &mut tray.state,
            &mut tray.own,
            &mut tray.agreed,
            &mut tray.run,
            &mut tray.accept,
            &mut tray.yes,
            &mut tray.heard,
            &mut tray.candidates,
            &mut tray.chosen,
        )
        .map_err(|_| anyhow!("a cycle was refused"))?;
        cluster = flown.cluster;
        vote = flown.outcome.vote;
    }
    Ok(vote)
}

// The numbers on the command line.
fn load_of(rt: &HostRuntime) -> anyhow::Result<Load> {
    let mut args = env::args(rt)?.skip(1);
    let (Some(n), Some(f), Some(sensors), Some(cycles)) = (
        args.next(),
        args.next(),
        args.next(),
        args.next(),
    ) else {
        return Err(anyhow!("usage: cycles REPLICAS FAULTY SENSORS CYCLES"));
    };
    let n = n.parse::<usize>()?;
    let f = f.parse::<usize>()?;
    let sensors = sensors.parse::<usize>()?;
    let cycles = cycles.parse::<usize>()?;
    if n > 16 || f > 5 || 3 * f >= n || sensors > 4 {
        return Err(anyhow!(
            "at most 16 replicas, fewer than a third of them faulty, and 4 sensors"
        ));
    }
    Ok(Load {
        n,
        f,
        sensors,
        cycles,
    })
}

// A cluster whose last f replicas are faulty.
fn made(load: Load, tray: &mut Tray) -> anyhow::Result<Cluster<Wheel, PhaseKing, Rest>> {
    let marks = (u16::MAX >> (16 - load.n)) & !(u16::MAX >> (16 - (load.n - load.f)));
    Cluster::make(
        Wheel,
        PhaseKing,
        load.n,
        load.f,
        load.sensors,
        marks,
        Count { value: 0 },
        &mut tray.state,
        &tray.own,
        &tray.agreed,
        &tray.run,
        &tray.accept,
        &tray.yes,
        &tray.heard,
        &tray.candidates,
        &tray.chosen,
    )
    .map_err(|_| anyhow!("making was refused"))
}

fn main(rt: HostRuntime) -> anyhow::Result<()> {
    let load = load_of(&rt)?;
    let heap = rt.alloc();
    let mut tray = Tray::new(heap, load)?;
    let entries = entries_of(heap, load)?;
    let said = Said::new(heap, load)?;
    let cluster = made(load, &mut tray)?;
    let cycles = load.cycles;
    match run(cluster, cycles, &entries, &said, &mut tray)? {
        Some(vote) => println!(rt; "{cycles} cycles, the last vote {vote}")?,
        None => println!(rt; "{cycles} cycles, no vote")?,
    }
    Ok(())
}
