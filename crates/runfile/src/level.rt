// A level from its 64 bits.
ghost use Rattle.std.specs.Prelude.{◌≡◌};
ghost use Rattle.std.specs.Option.{option_map};
ghost use Rattle.runfile.specs.Levels.{level_in};

use applications::level::Level;

// The bits of infinity, which above them are those of a NaN.
const INFINITY: u64 = 0x7ff0_0000_0000_0000;

// The level, if the number qualifies; a NaN's bits are not read as a number, which has but one NaN.
pub fn level_of_bits(bits: u64) -> Option<Level>
    ensures { option_map (λ level. level.value) result ≡ level_in bits }
{
    if bits % 0x8000_0000_0000_0000 > INFINITY {
        return None;
    }
    Level::try_from(f64::from_bits(bits)).ok()
}
