// What the calls are lent, of any length.
use anyhow::Context;
use applications::wheel::{Count, Torque};
use selections::NO_SENSOR;
use std::alloc::{AllocError, Global};
use values::Entry;

// The nine tables, and what the calls are given: the sensors' entries, and what faulty replicas say.
#[derive(Clone, PartialEq, Drop)]
pub struct Tray {
    pub state: Vec<Count>,
    pub own: Vec<Entry<Count>>,
    pub agreed: Vec<Entry<Count>>,
    pub run: Vec<Count>,
    pub accept: Vec<bool>,
    pub yes: Vec<u16>,
    pub heard: Vec<Entry<Count>>,
    pub candidates: Vec<u8>,
    pub chosen: Vec<u8>,
    pub entries: Vec<Entry<Count>>,
    pub claims: Vec<Entry<Count>>,
    pub states: Vec<Entry<Count>>,
    pub commands: Vec<Entry<Torque>>,
}

// A part of a tray.
#[derive(Clone, Copy)]
pub enum Part {
    State,
    Own,
    Agreed,
    Run,
    Accept,
    Yes,
    Heard,
    Candidates,
    Chosen,
    Entries,
    Claims,
    States,
    Commands,
}

// The tables, in the order in which they are lent.
pub const TABLES: [Part; 9] = [
    Part::State,
    Part::Own,
    Part::Agreed,
    Part::Run,
    Part::Accept,
    Part::Yes,
    Part::Heard,
    Part::Candidates,
    Part::Chosen,
];

// Another length, by one.
#[derive(Clone, Copy)]
pub enum Change {
    Shorter,
    Longer,
}

impl Change {
    fn apply<T: Copy>(self, items: &mut Vec<T>) -> anyhow::Result<()> {
        let last = items.pop().context("nothing to shorten")?;
        if let Change::Longer = self {
            items.push(last)?;
            items.push(last)?;
        }
        Ok(())
    }
}

impl Tray {
    // For so many replicas and sensors, whether making accepts them or not. Each sensor gives 2, and no table holds what a call would write, so that a write shows.
    pub fn new(heap: Global, n: usize, sensors: usize) -> Result<Tray, AllocError> {
        let each = n.saturating_mul(sensors);
        let told = n.saturating_mul(each);
        let zero = Count { value: 0 };
        Ok(Tray {
            state: vec![in heap; zero; n]?,
            own: vec![in heap; None; each]?,
            agreed: vec![in heap; None; each]?,
            run: vec![in heap; zero; each]?,
            accept: vec![in heap; false; each]?,
            yes: vec![in heap; 0u16; each]?,
            heard: vec![in heap; None; told]?,
            candidates: vec![in heap; 0u8; n]?,
            chosen: vec![in heap; NO_SENSOR; n]?,
            entries: vec![in heap; Some(Count { value: 2 }); each]?,
            claims: vec![in heap; None; told]?,
            states: vec![in heap; None; n.saturating_mul(n)]?,
            commands: vec![in heap; None; n]?,
        })
    }

    // A copy, of which one part has another length.
    pub fn with(&self, part: Part, change: Change) -> anyhow::Result<Tray> {
        let mut tray = self.clone()?;
        match part {
            Part::State => change.apply(&mut tray.state)?,
            Part::Own => change.apply(&mut tray.own)?,
            Part::Agreed => change.apply(&mut tray.agreed)?,
            Part::Run => change.apply(&mut tray.run)?,
            Part::Accept => change.apply(&mut tray.accept)?,
            Part::Yes => change.apply(&mut tray.yes)?,
            Part::Heard => change.apply(&mut tray.heard)?,
            Part::Candidates => change.apply(&mut tray.candidates)?,
            Part::Chosen => change.apply(&mut tray.chosen)?,
            Part::Entries => change.apply(&mut tray.entries)?,
            Part::Claims => change.apply(&mut tray.claims)?,
            Part::States => change.apply(&mut tray.states)?,
            Part::Commands => change.apply(&mut tray.commands)?,
        }
        Ok(tray)
    }
}
