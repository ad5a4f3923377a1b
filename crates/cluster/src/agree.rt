// Agree: what each sound replica gets of the others' accepts, and which readings it agrees on.
ghost use Rattle.std.specs.Prelude.{◌≡◌, ℕ, ◌+◌, ◌*◌, ◌^◌, ◌<◌, false, length, slice_index};
ghost use Rattle.quorum.specs.Counting.{bit};
ghost use Rattle.values.specs.Entries.{present, SameEntry, entry_at};
ghost use Rattle.protocol.specs.Clusters.{semantics};
ghost use Rattle.protocol.specs.Tables.{MaskOf, Written};
ghost use Rattle.protocol.specs.Setup.{lent};
ghost use Rattle.cluster.specs.Answers.{AgreeAnswers};
ghost use Rattle.cluster.specs.Writing.{faulty_at, heard_row, agrees_on, AgreesOn, Could};

use crate::deliver::Instances;
use crate::mask::mask_of;
use crate::row::{Heard, Heeded, Row};
use crate::stages::{Agreed, Filtered};
use crate::writing::write_sound;
use crate::{Cluster, Refused};
use layers::layer::Layer;
use protocol::never_part;
use questions::{Parameters, Sizes};
use quorum::set_bits;
use values::entries::{entry_at, majority};
use values::{Application, Entry, Value};

// What a replica agrees on of a sensor, from its mask and what it heard.
fn agree_on<R: Value>(row: &Row<'_, R>, mask: u16, accepted: bool, own: Entry<R>) -> Entry<R>
    requires { mask < 2 ^ row.now.heard.now.parameters.n }
    ensures { let h = row.now.heard.now in let p = h.parameters in SameEntry R.Value.means result (agrees_on R.Value.alike p.n p.f (bit mask) accepted own (heard_row p.n p.sensors h.entries.now row.now.i row.now.k)) }
{
    let Parameters { n, f, .. } = row.heard.parameters;
    if set_bits(mask) < n - f {
        return None;
    }
    if accepted {
        own
    } else {
        majority(&Heeded { row, mask })
    }
}

// What the replicas work their agreed entries out from; no mask of a sound one has a bit from n on.
#[derive(Drop)]
struct AgreeInputs<'a, R> {
    heard: &'a Heard<'a, R>,
    own: &'a [Entry<R>],
    accept: &'a [bool],
    yes: &'a [u16],
    ghost accept_len: { length accept.now ≡ heard.now.parameters.n * heard.now.parameters.sensors },
    ghost yes_len: { length yes.now ≡ heard.now.parameters.n * heard.now.parameters.sensors },
    ghost masks_fit: { (p : ℕ) → p < heard.now.parameters.n * heard.now.parameters.sensors → faulty_at heard.now.parameters.marks heard.now.parameters.sensors p ≡ false → slice_index yes.now p < 2 ^ heard.now.parameters.n },
}

impl<'a, R: Value> AgreeInputs<'a, R> {
    // What is agreed on at a sound replica's place.
    fn agreed_at(&self, p: usize) -> Entry<R>
        requires place { p < self.now.heard.now.parameters.n * self.now.heard.now.parameters.sensors }
        requires sound { faulty_at self.now.heard.now.parameters.marks self.now.heard.now.parameters.sensors p ≡ false }
        ensures { let q = self.now.heard.now.parameters in AgreesOn R.Value.means R.Value.alike q.n q.f q.sensors self.now.own.now self.now.accept.now self.now.yes.now self.now.heard.now.entries.now p result }
    {
        let row = self.heard.row(p);
        agree_on(&row, self.yes[p], self.accept[p], entry_at(self.own, p))
    }

    // Writes agreed at the places of the sound replicas.
    fn write_agreed(&self, agreed: &mut [Entry<R>])
        requires { length agreed.old ≡ self.now.heard.now.parameters.n * self.now.heard.now.parameters.sensors }
        ensures { let q = self.now.heard.now.parameters in Written (q.n * q.sensors) (faulty_at q.marks q.sensors) (AgreesOn R.Value.means R.Value.alike q.n q.f q.sensors self.now.own.now self.now.accept.now self.now.yes.now self.now.heard.now.entries.now) agreed.old agreed.new }
    {
        let parameters = self.heard.parameters;
        write_sound(
            parameters,
            parameters.sensors,
            agreed,
            |p| self.agreed_at(p),
        );
    }
}

// The sensors on which replica i agreed, as a mask.
fn candidates_of<R: Value>(parameters: Parameters, agreed: &[Entry<R>], i: usize) -> u8
    requires { i < parameters.n }
    ensures { Could parameters.sensors agreed.now i result }
{
    mask_of(
        parameters.sensors,
        |k| entry_at(agreed, i * parameters.sensors + k).is_some(),
    ) as u8
}

// Writes the candidates of the sound replicas.
fn write_candidates<R: Value>(parameters: Parameters, agreed: &[Entry<R>], candidates: &mut [u8])
    requires { length candidates.old ≡ parameters.n }
    ensures { Written parameters.n (bit parameters.marks) (Could parameters.sensors agreed.now) candidates.old candidates.new }
{
    write_sound(
        parameters,
        1,
        candidates,
        |i| candidates_of(parameters, agreed, i),
    );
}

impl<A: Application, L: Layer> Cluster<A, L, Filtered> {
    // Agrees on who accepted what, and so on the readings: the words of sender j and sensor k are those of instance k * n + j.
    pub fn agree(
        self,
        words: &[u8],
        state: &[A::State],
        own: &[Entry<A::Reading>],
        agreed: &mut [Entry<A::Reading>],
        run: &[A::State],
        accept: &[bool],
        yes: &mut [u16],
        heard: &[Entry<A::Reading>],
        candidates: &mut [u8],
        chosen: &[u8],
    ) -> Result<Cluster<A, L, Agreed>, Refused<Cluster<A, L, Filtered>>>
        ensures { AgreeAnswers (semantics A.Reading.Value A.State.Value A.Command.Value A.Application L.Layer) self words.now
            (lent state.now own.now agreed.old run.now accept.now yes.old heard.now candidates.old chosen.now)
            (lent state.now own.now agreed.new run.now accept.now yes.new heard.now candidates.new chosen.now)
            result }
    {
        never_part::<A, L>();
        let parameters = self.parameters;
        let sizes = Sizes::of(
            state, own, agreed, run, accept, yes, heard, candidates, chosen,
        );
        if let Err(refusal) = parameters.ask_tables(sizes) {
            return Err(Refused {
                cluster: self,
                refusal,
            });
        }
        let instances = Instances {
            layer: &self.layer,
            parameters,
            accept,
            words,
        };
        instances.write_yes(yes);
        let heard = Heard {
            parameters,
            entries: heard,
        };
        let inputs = AgreeInputs {
            heard: &heard,
            own,
            accept,
            yes,
        };
        inputs.write_agreed(agreed);
        write_candidates(parameters, agreed, candidates);
        Ok(self.at())
    }
}
