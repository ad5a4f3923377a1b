// The engine's calls over the wheel and the bus, each lent a tray; there each table is a parameter of its own, by a rule of the project.
use crate::tray::Tray;
use applications::wheel::{Count, Torque, Wheel};
use cluster::stages::{Agreed, Chosen, Filtered, Rest, TakenIn};
use cluster::{Cluster, Committed, Refused};
use layers::bus::Bus;
use selections::mid_value::MidValue;

// A cluster over the wheel and the bus.
pub type Engine<G> = Cluster<Wheel, Bus, G>;

// What a call leads to, or its refusal, with what the call was made on.
pub type Answer<C, D> = Result<D, Refused<C>>;

// What making is asked.
#[derive(Clone, Copy)]
pub struct Numbers {
    pub n: usize,
    pub f: usize,
    pub sensors: usize,
    pub marks: u16,
}

pub fn make(
    numbers: Numbers,
    (app, layer): (Wheel, Bus),
    tray: &mut Tray,
) -> Answer<(Wheel, Bus), Engine<Rest>> {
    Cluster::make(
        app,
        layer,
        numbers.n,
        numbers.f,
        numbers.sensors,
        numbers.marks,
        Count { value: 10 },
        &mut tray.state,
        &tray.own,
        &tray.agreed,
        &tray.run,
        &tray.accept,
        &tray.yes,
        &tray.heard,
        &tray.candidates,
        &tray.chosen,
    )
    .map_err(|unmade| Refused {
        cluster: (unmade.app, unmade.layer),
        refusal: unmade.refusal,
    })
}

pub fn intake(at: Engine<Rest>, tray: &mut Tray) -> Answer<Engine<Rest>, Engine<TakenIn>> {
    at.intake(
        &tray.entries,
        &tray.state,
        &mut tray.own,
        &tray.agreed,
        &mut tray.run,
        &tray.accept,
        &tray.yes,
        &tray.heard,
        &tray.candidates,
        &tray.chosen,
    )
}

pub fn filter(at: Engine<TakenIn>, tray: &mut Tray) -> Answer<Engine<TakenIn>, Engine<Filtered>> {
    at.filter(
        &tray.claims,
        &tray.state,
        &tray.own,
        &tray.agreed,
        &tray.run,
        &mut tray.accept,
        &tray.yes,
        &mut tray.heard,
        &tray.candidates,
        &tray.chosen,
    )
}

pub fn agree(at: Engine<Filtered>, tray: &mut Tray) -> Answer<Engine<Filtered>, Engine<Agreed>> {
    at.agree(
        &[],
        &tray.state,
        &tray.own,
        &mut tray.agreed,
        &tray.run,
        &tray.accept,
        &mut tray.yes,
        &tray.heard,
        &mut tray.candidates,
        &tray.chosen,
    )
}

pub fn select(at: Engine<Agreed>, tray: &mut Tray) -> Answer<Engine<Agreed>, Engine<Chosen>> {
    at.select(
        &MidValue,
        &tray.state,
        &tray.own,
        &tray.agreed,
        &tray.run,
        &tray.accept,
        &tray.yes,
        &tray.heard,
        &tray.candidates,
        &mut tray.chosen,
    )
}

pub fn commit(
    at: Engine<Chosen>,
    tray: &mut Tray,
) -> Answer<Engine<Chosen>, Committed<Wheel, Bus, Torque>> {
    at.commit(
        &tray.states,
        &tray.commands,
        &mut tray.state,
        &tray.own,
        &tray.agreed,
        &tray.run,
        &tray.accept,
        &tray.yes,
        &tray.heard,
        &tray.candidates,
        &tray.chosen,
    )
}

pub fn look(
    replica: usize,
    at: Engine<Rest>,
    tray: &mut Tray,
) -> Answer<Engine<Rest>, (Engine<Rest>, Count)> {
    let told = at.look(
        replica,
        &tray.state,
        &tray.own,
        &tray.agreed,
        &tray.run,
        &tray.accept,
        &tray.yes,
        &tray.heard,
        &tray.candidates,
        &tray.chosen,
    );
    match told {
        Ok(state) => Ok((at, state)),
        Err(refusal) => Err(Refused {
            cluster: at,
            refusal,
        }),
    }
}
