// The replica whose choice is answered.
ghost use Rattle.std.specs.Prelude.{◌≡◌, ◌<◌, not};
ghost use Rattle.quorum.specs.Counting.{bit, lowest};

use questions::Parameters;
use quorum::lowest_set;

// The lowest sound replica.
pub(crate) fn lowest_sound(parameters: Parameters) -> usize
    ensures is { result ≡ lowest parameters.n (λ i. not (bit parameters.marks i)) }
    ensures within { result < parameters.n }
{
    lowest_set(!parameters.marks, parameters.n)
}
