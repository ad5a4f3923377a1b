// Entries read by position, wherever they lie, and their majority: written once, for readings, states and commands alike.
ghost use Rattle.std.specs.Prelude.{◌≡◌, ℕ, ◌+◌, ◌^◌, ◌<◌, false, length, Option};
ghost use Rattle.values.specs.Entries.{SameEntry, entry_at, carries as carried, presence as present_in, matches as matches_in};
ghost use Rattle.values.specs.Majority.{Voted};
ghost use Rattle.values.specs.Lead.{Weighed, Leads};

use crate::{Entry, Value};
use quorum::count_of;

// A row of entries: how many there are, and each by its position.
pub trait Entries {
    type Item: Value;

    ghost size: { Self → ℕ };

    ghost entry: { Self → ℕ → Option Self.Item };

    fn len(&self) -> usize
        ensures { result ≡ size self.now };

    fn at(&self, i: usize) -> Entry<Self::Item>
        requires { i < size self.now }
        ensures { SameEntry Self.Item.Value.means result (entry self.now i) };
}

// A slice of entries, as it lies.
impl<'a, V: Value> Entries for &'a [Entry<V>] {
    type Item = V;

    ghost size = { λ s. length s.now };

    ghost entry = { λ s. entry_at s.now };

    fn len(&self) -> usize {
        (*self).len()
    }

    fn at(&self, i: usize) -> Entry<V> {
        let row: &[Entry<V>] = *self;
        row[i]
    }
}

// The entry at a place of a slice, missing past its end.
pub fn entry_at<V: Value>(entries: &[Entry<V>], i: usize) -> Entry<V>
    ensures { result ≡ entry_at entries.now i }
{
    entries.get(i).copied().flatten()
}

// How many entries are present.
pub fn presence<E: Entries>(entries: &E) -> usize
    ensures { result ≡ present_in (E.Entries.size entries.now) (E.Entries.entry entries.now) }
{
    count_of(entries.len(), |i| entries.at(i).is_some())
}

// Whether an entry carries the value x.
pub fn carries<V: Value>(e: &Entry<V>, x: &V) -> bool
    ensures { result ≡ carried V.Value.alike x.now e.now }
{
    e.as_ref().is_some_and(|y| x.same(y))
}

// How many entries carry the value x.
pub fn matches<E: Entries>(entries: &E, x: &E::Item) -> usize
    ensures { result ≡ matches_in E.Item.Value.alike x.now (E.Entries.size entries.now) (E.Entries.entry entries.now) }
{
    count_of(entries.len(), |i| carries(&entries.at(i), x))
}

// The only value that can still have more than half of the entries weighed so far, and what it is ahead by.
#[derive(Clone, Copy)]
struct Lead<V> {
    holder: Entry<V>,
    margin: usize,
}

// Weighs one entry: it adds to the lead, takes one away, or takes over a spent one.
fn weigh<V: Value>(lead: Lead<V>, e: Entry<V>) -> Lead<V>
    requires { lead.margin + 1 < 2 ^ 64 }
    ensures { Weighed V.Value.alike lead.holder lead.margin e result.holder result.margin }
{
    let Lead { holder, margin } = lead;
    match e {
        None => Lead { holder, margin },
        Some(_) if margin == 0 => Lead {
            holder: e,
            margin: 1,
        },
        Some(x) if carries(&holder, &x) => Lead {
            holder,
            margin: margin + 1,
        },
        Some(_) => Lead {
            holder,
            margin: margin - 1,
        },
    }
}

// The lead once all entries are weighed; its margin never passes the number of entries.
fn leader<E: Entries>(entries: &E) -> Lead<E::Item>
    ensures { Leads E.Item.Value.alike (E.Entries.size entries.now) (E.Entries.entry entries.now) result.holder result.margin }
{
    let mut lead = Lead {
        holder: None,
        margin: 0,
    };
    for i in 0..entries.len() {
        lead = weigh(lead, entries.at(i));
    }
    lead
}

// The value that more than half of the present entries carry; missing exactly when there is none.
pub fn majority<E: Entries>(entries: &E) -> Entry<E::Item>
    ensures { Voted E.Item.Value.means E.Item.Value.alike (E.Entries.size entries.now) (E.Entries.entry entries.now) result }
{
    leader(entries).holder.filter(|x| {
        let all = presence(entries);
        matches(entries, x) > all / 2
    })
}
