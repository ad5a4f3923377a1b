ghost use Rattle.std.specs.Prelude.{◌≡◌, ◌+◌, ◌*◌, ◌≤◌};
ghost use Rattle.layers.specs.King.{phase_size};
ghost use Rattle.layers.specs.Views.{given};

use crate::layer::Instance;

// The bytes of words that a phase has: n² votes, n² proposals and n bytes of the king.
pub fn phase_size(n: usize) -> usize
    requires { n ≤ 16 }
    ensures { result ≡ phase_size n }
{
    2 * (n * n) + n
}

// What the replicas see of a phase; its words start at `start`, far below where a sum could wrap.
#[derive(Drop)]
pub struct Phase<'a> {
    pub instance: Instance<'a>,
    pub king: usize,
    pub start: usize,
    ghost turn: { king ≤ instance.f },
    ghost starts: { start ≡ instance.n + king * phase_size instance.n },
    ghost low: { start ≤ 65024 },
}

impl<'a> Phase<'a> {
    // The phase of a king.
    pub fn new(instance: &Instance<'a>, king: usize) -> Phase<'a>
        requires { king ≤ instance.now.f }
        ensures given { given result.instance ≡ given instance.now }
        ensures king { result.king ≡ king }
    {
        Phase {
            instance: *instance,
            king,
            start: instance.n + king * phase_size(instance.n),
        }
    }
}
