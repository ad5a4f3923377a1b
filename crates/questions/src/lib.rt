// What is asked before any work: a cluster's numbers, the sizes of tables, and the number of the first no.
#![tactic(auto)]

ghost use Rattle.std.specs.Prelude.{◌≡◌};
ghost use Rattle.questions.specs.Numbers.{Sizable, Bearable};
ghost use Rattle.questions.specs.Refusals.{number_of};
ghost use Rattle.questions.specs.Lengths.{sizes_of};
ghost use Rattle.protocol.specs.Setup.{lent, sizes};

use values::Entry;

pub mod asking;

// What a cluster may have: n replicas, of which at most f are faulty, those of the mask `marks`, and its sensors.
#[derive(Clone, Copy)]
pub struct Parameters {
    pub n: usize,
    pub f: usize,
    pub sensors: usize,
    pub marks: u16,
    ghost sizable: { Sizable n sensors },
    ghost bearable: { Bearable n f marks },
}

// How long the lent tables are.
#[derive(Clone, Copy, PartialEq, Eq, Debug)]
pub struct Sizes {
    pub state: usize,
    pub own: usize,
    pub agreed: usize,
    pub run: usize,
    pub accept: usize,
    pub yes: usize,
    pub heard: usize,
    pub candidates: usize,
    pub chosen: usize,
}

impl Sizes {
    // Of the tables, each a parameter of its own, by a rule of the project.
    pub fn of<R, S>(
        state: &[S],
        own: &[Entry<R>],
        agreed: &[Entry<R>],
        run: &[S],
        accept: &[bool],
        yes: &[u16],
        heard: &[Entry<R>],
        candidates: &[u8],
        chosen: &[u8],
    ) -> Sizes
        ensures { sizes_of result ≡ sizes (lent state.now own.now agreed.now run.now accept.now yes.now heard.now candidates.now chosen.now) }
    {
        Sizes {
            state: state.len(),
            own: own.len(),
            agreed: agreed.len(),
            run: run.len(),
            accept: accept.len(),
            yes: yes.len(),
            heard: heard.len(),
            candidates: candidates.len(),
            chosen: chosen.len(),
        }
    }
}

// Why a call is refused: the question that was answered no, by its number.
#[derive(Clone, Copy, PartialEq, Eq, Debug)]
pub enum Refusal {
    Replicas = 1,
    Faults = 2,
    Third = 3,
    Sensors = 4,
    MarkedNumber = 5,
    Marked = 6,
    TablesSize = 7,
    InputSize = 8,
    ReplicaNumber = 9,
    ReplicaFaulty = 10,
}

impl Refusal {
    // The number of the question that was answered no.
    pub fn number(&self) -> u8
        ensures { result ≡ number_of self.now }
    {
        *self as u8
    }
}
