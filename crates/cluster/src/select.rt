// Select: each sound replica chooses one of its candidates. That an index is below n each call asks: a type for it would say no more.
ghost use Rattle.std.specs.Prelude.{◌≡◌, ◌+◌, ◌*◌, ◌<◌, ◌≤◌, length};
ghost use Rattle.quorum.specs.Counting.{bit};
ghost use Rattle.protocol.specs.Clusters.{semantics};
ghost use Rattle.protocol.specs.Setup.{lent};
ghost use Rattle.cluster.specs.Answers.{SelectAnswers};
ghost use Rattle.protocol.specs.Tables.{Written};
ghost use Rattle.cluster.specs.Writing.{agreed_row, Chooses};

use crate::stages::{Agreed, Chosen};
use crate::writing::write_sound;
use crate::{Cluster, Refused};
use layers::layer::Layer;
use protocol::never_part;
use questions::{Parameters, Sizes};
use selections::Selection;
use values::{Application, Entry, Value};

// What the replicas agreed on.
#[derive(Drop)]
struct Readings<'a, R> {
    parameters: Parameters,
    agreed: &'a [Entry<R>],
    ghost agreed_len: { length agreed.now ≡ parameters.n * parameters.sensors },
}

impl<'a, R: Value> Readings<'a, R> {
    // What replica i agreed on, by the sensor.
    fn of(&self, i: usize) -> &[Entry<R>]
        requires { i < self.now.parameters.n }
        ensures is { result.now ≡ agreed_row self.now.parameters.sensors self.now.agreed.now i }
        ensures few { length result.now ≡ self.now.parameters.sensors }
    {
        let sensors = self.parameters.sensors;
        &self.agreed[i * sensors..i * sensors + sensors]
    }

    // The selection's answer on it.
    fn choice<S: Selection<R>>(&self, selection: &S, i: usize) -> u8
        requires { i < self.now.parameters.n }
        ensures { Chooses (S.Selection.choice selection.now) self.now.parameters.sensors self.now.agreed.now i result }
    {
        selection.choose(self.of(i))
    }

    // Writes the chosen sensors of the sound replicas.
    fn write_chosen<S: Selection<R>>(&self, selection: &S, chosen: &mut [u8])
        requires { length chosen.old ≡ self.now.parameters.n }
        ensures { let p = self.now.parameters in Written p.n (bit p.marks) (Chooses (S.Selection.choice selection.now) p.sensors self.now.agreed.now) chosen.old chosen.new }
    {
        write_sound(self.parameters, 1, chosen, |i| self.choice(selection, i));
    }
}

impl<A: Application, L: Layer> Cluster<A, L, Agreed> {
    // Chooses among the candidates.
    pub fn select<S: Selection<A::Reading>>(
        self,
        selection: &S,
        state: &[A::State],
        own: &[Entry<A::Reading>],
        agreed: &[Entry<A::Reading>],
        run: &[A::State],
        accept: &[bool],
        yes: &[u16],
        heard: &[Entry<A::Reading>],
        candidates: &[u8],
        chosen: &mut [u8],
    ) -> Result<Cluster<A, L, Chosen>, Refused<Cluster<A, L, Agreed>>>
        ensures { SelectAnswers (semantics A.Reading.Value A.State.Value A.Command.Value A.Application L.Layer) self (S.Selection.choice selection.now)
            (lent state.now own.now agreed.now run.now accept.now yes.now heard.now candidates.now chosen.old)
            (lent state.now own.now agreed.now run.now accept.now yes.now heard.now candidates.now chosen.new)
            result }
    {
        never_part::<A, L>();
        let parameters = self.parameters;
        let sizes = Sizes::of(
            state, own, agreed, run, accept, yes, heard, candidates, chosen,
        );
        if let Err(refusal) = parameters.ask_tables(sizes) {
            return Err(Refused {
                cluster: self,
                refusal,
            });
        }
        Readings { parameters, agreed }.write_chosen(selection, chosen);
        Ok(self.at())
    }
}
