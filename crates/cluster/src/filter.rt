// Filter: what each sound replica hears from each, and which of its own entries it accepts. That an index is below n each call asks: a type for it would say no more.
ghost use Rattle.std.specs.Prelude.{◌≡◌, ◌+◌, ◌-◌, ◌*◌, ◌/◌, ◌%◌, ◌<◌, ◌≤◌, length};
ghost use Rattle.protocol.specs.Clusters.{semantics};
ghost use Rattle.protocol.specs.Setup.{lent};
ghost use Rattle.cluster.specs.Answers.{FilterAnswers};
ghost use Rattle.protocol.specs.Tables.{Written};
ghost use Rattle.cluster.specs.Writing.{faulty_at, deaf_at, heard_from, Hears, heard_row, accepts_own, Accepts};

use crate::row::{Heard, Row};
use crate::stages::{Filtered, TakenIn};
use crate::writing::write_sound;
use crate::{Cluster, Refused};
use layers::layer::Layer;
use protocol::never_part;
use questions::{Parameters, Sizes};
use values::entries::{entry_at, matches};
use values::{Application, Entry, Value};

// What the replicas tell one another: the sound their own entries, and the faulty their claims.
#[derive(Drop)]
struct Told<'a, R> {
    parameters: Parameters,
    own: &'a [Entry<R>],
    claims: &'a [Entry<R>],
}

impl<'a, R: Value> Told<'a, R> {
    // What i hears from j about sensor k.
    fn heard(&self, i: usize, j: usize, k: usize) -> Entry<R>
        requires hearer { i < self.now.parameters.n }
        requires speaker { j < self.now.parameters.n }
        requires sensor { k < self.now.parameters.sensors }
        ensures { let p = self.now.parameters in result ≡ heard_from p.n p.sensors p.marks self.now.own.now self.now.claims.now i j k }
    {
        let Parameters { n, sensors, .. } = self.parameters;
        if self.parameters.is_sound(j) {
            entry_at(self.own, j * sensors + k)
        } else {
            entry_at(self.claims, (j * n + i) * sensors + k)
        }
    }

    // What the replica of a place hears there.
    fn heard_at(&self, p: usize) -> Entry<R>
        requires { p < self.now.parameters.n * self.now.parameters.n * self.now.parameters.sensors }
        ensures { let q = self.now.parameters in Hears q.n q.sensors q.marks self.now.own.now self.now.claims.now p result }
    {
        let Parameters { n, sensors, .. } = self.parameters;
        let row = p / sensors;
        self.heard(row / n, row % n, p % sensors)
    }

    // Writes heard at the places of the sound replicas.
    fn write_heard(&self, heard: &mut [Entry<R>])
        requires { length heard.old ≡ self.now.parameters.n * self.now.parameters.n * self.now.parameters.sensors }
        ensures { let q = self.now.parameters in Written (q.n * q.n * q.sensors) (deaf_at q.n q.sensors q.marks) (Hears q.n q.sensors q.marks self.now.own.now self.now.claims.now) heard.old heard.new }
    {
        let Parameters { n, sensors, .. } = self.parameters;
        write_sound(self.parameters, sensors * n, heard, |p| self.heard_at(p));
    }
}

// Whether an own entry is accepted, by what was heard of its sensor.
fn accepts<R: Value>(row: &Row<'_, R>, e: Entry<R>) -> bool
    ensures { let h = row.now.heard.now in let p = h.parameters in result ≡ accepts_own R.Value.alike p.n p.f e (heard_row p.n p.sensors h.entries.now row.now.i row.now.k) }
{
    let Parameters { n, f, .. } = row.heard.parameters;
    match e {
        Some(x) => matches(row, &x) >= n - f,
        None => false,
    }
}

// Writes accept at the places of the sound replicas.
fn write_accept<R: Value>(heard: &Heard<'_, R>, own: &[Entry<R>], accept: &mut [bool])
    requires { length accept.old ≡ heard.now.parameters.n * heard.now.parameters.sensors }
    ensures { let p = heard.now.parameters in Written (p.n * p.sensors) (faulty_at p.marks p.sensors) (Accepts R.Value.alike p.n p.f p.sensors own.now heard.now.entries.now) accept.old accept.new }
{
    write_sound(
        heard.parameters,
        heard.parameters.sensors,
        accept,
        |p| accepts(&heard.row(p), entry_at(own, p)),
    );
}

impl<A: Application, L: Layer> Cluster<A, L, TakenIn> {
    // Passes the entries round, and accepts those that enough replicas share: j's claim to i about sensor k stands at place (j * n + i) * sensors + k.
    pub fn filter(
        self,
        claims: &[Entry<A::Reading>],
        state: &[A::State],
        own: &[Entry<A::Reading>],
        agreed: &[Entry<A::Reading>],
        run: &[A::State],
        accept: &mut [bool],
        yes: &[u16],
        heard: &mut [Entry<A::Reading>],
        candidates: &[u8],
        chosen: &[u8],
    ) -> Result<Cluster<A, L, Filtered>, Refused<Cluster<A, L, TakenIn>>>
        ensures { FilterAnswers (semantics A.Reading.Value A.State.Value A.Command.Value A.Application L.Layer) self claims.now
            (lent state.now own.now agreed.now run.now accept.old yes.now heard.old candidates.now chosen.now)
            (lent state.now own.now agreed.now run.now accept.new yes.now heard.new candidates.now chosen.now)
            result }
    {
        never_part::<A, L>();
        let parameters = self.parameters;
        let Parameters { n, sensors, .. } = parameters;
        let sizes = Sizes::of(
            state, own, agreed, run, accept, yes, heard, candidates, chosen,
        );
        if let Err(refusal) = parameters.ask_stage(sizes, claims.len() == n * n * sensors) {
            return Err(Refused {
                cluster: self,
                refusal,
            });
        }
        let told = Told {
            parameters,
            own,
            claims,
        };
        told.write_heard(heard);
        let heard = Heard {
            parameters,
            entries: heard,
        };
        write_accept(&heard, own, accept);
        Ok(self.at())
    }
}
