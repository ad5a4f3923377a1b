// Four processors and three redundant sensors: one sensor is wrong, one processor lies, and the vote still stands.
// Each line of the input is a cycle: the sensors' readings, or `-` for one that gives none.
#![tactic(auto)]

use agreement::deliver;
use anyhow::{Context, Result, ensure};
use applications::wheel::Count;
use engine::show_engine;
use layers::king::PhaseKing;
use processors::{Processor, cycle};
use quorum::is_set;
use selections::NO_SENSOR;
use show::{Reading, show_row, show_vote};
use values::Entry;

mod agreement;
mod engine;
mod processors;
mod show;

// A row of answers, one for each sound replica.
fn show_bits(rt: &HostRuntime, title: &str, bits: u16) -> Result<()> {
    show_row(
        rt,
        title,
        (0..3).map(|i| if is_set(bits, i) { "yes" } else { "no" }),
    )
}

// The sender tells replicas 0 and 2 yes and replica 1 no, and then says nothing more.
fn show_agreement(rt: &HostRuntime) -> Result<()> {
    println!(rt; "phase king, with a two-faced sender")?;
    show_bits(rt, "told", 5)?;
    show_bits(rt, "got", deliver(&PhaseKing, &[1, 0, 1]))
}

// One word of a line.
fn entry_of(word: &str) -> Result<Entry<Count>> {
    match word {
        "-" => Ok(None),
        number => Ok(Some(Count {
            value: number.parse()?,
        })),
    }
}

// The readings of one cycle.
fn readings_of(line: &str) -> Result<[Entry<Count>; 3]> {
    let mut readings = [None; 3];
    let mut words = line.split_whitespace();
    for reading in readings.iter_mut() {
        let word = words
            .next()
            .context("a cycle has three readings, and a line has fewer")?;
        *reading = entry_of(word)?;
    }
    ensure!(
        words.next().is_none(),
        "a cycle has three readings, and a line has more"
    );
    Ok(readings)
}

// Runs one cycle and prints it.
fn show_cycle(
    rt: &HostRuntime,
    processors: &mut [Processor],
    readings: &[Entry<Count>; 3],
) -> Result<()> {
    show_row(rt, "readings", readings.iter().copied().map(Reading))?;
    let outcome = cycle(processors, readings);
    match outcome.chosen {
        NO_SENSOR => println!(rt; "  chosen none")?,
        sensor => println!(rt; "  chosen sensor {sensor}")?,
    }
    show_row(rt, "commands", processors.iter().map(Processor::send))?;
    show_vote(rt, outcome.vote)
}

// Runs a cycle for each line of the input; the number is counted beside, since a range that is zipped would end where this stays at its top.
fn run_cycles(rt: &HostRuntime, processors: &mut [Processor]) -> Result<()> {
    let mut number: u32 = 0;
    for line in rt.lines(rt.alloc()) {
        let readings = readings_of(line?.as_str())?;
        number = number.saturating_add(1);
        println!(rt; "cycle {number}")?;
        show_cycle(rt, processors, &readings)?;
    }
    Ok(())
}

fn main(rt: HostRuntime) -> Result<()> {
    let sound = Processor {
        state: Count { value: 0 },
        lies: false,
    };
    let liar = Processor {
        lies: true,
        ..sound
    };
    let mut processors = [sound, sound, sound, liar];
    show_agreement(&rt)?;
    run_cycles(&rt, &mut processors)?;
    show_engine(&rt)
}
