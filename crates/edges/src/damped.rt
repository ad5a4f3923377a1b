use applications::damped::{Damped, OutOfRange, Thrust, UnknownThrust};
use applications::level::Level;
use std::test::Fail;
use values::Application;

// The number, read through a level.
fn number(x: f64) -> Result<f64, OutOfRange> {
    Level::try_from(x).map(|l| l.number())
}

// The ends of the range qualify, and so do the smallest numbers.
#[test]
fn ends_and_subnormals_qualify(rt: HostRuntime) {
    for x in [
        1000000.0,
        -1000000.0,
        999999.9999999999,
        0.0,
        5e-324,
        -5e-324,
        2.2250738585072014e-308,
    ] {
        assert_eq!(rt; number(x), Ok(x));
    }
}

// A number just past an end, an infinity and a NaN do not.
#[test]
fn others_are_missing(rt: HostRuntime) {
    let zero = 0.0;
    let past = [
        1000000.0000000001,
        -1000000.0000000001,
        1e300,
        1.0 / zero,
        -1.0 / zero,
        zero / zero,
    ];
    for x in past {
        assert_eq!(rt; number(x), Err(OutOfRange));
    }
}

// A minus zero is taken as zero: one over it is the positive infinity.
#[test]
fn minus_zero_is_zero(rt: HostRuntime) -> Result<(), Fail> {
    assert!(rt; 1.0 / number(-0.0)? > 0.0);
    Ok(())
}

// Each operation rounds once, in its order: another order gives 0.24999999999999997 for the last but one.
#[test]
fn steps_round_in_order(rt: HostRuntime) -> Result<(), Fail> {
    let cases = [
        (0.0, 1.0, 0.25),
        (1.0, 0.0, 0.75),
        (-1000000.0, 1000000.0, -500000.0),
        (1000000.0, 1000000.0, 1000000.0),
        (-1000000.0, -1000000.0, -1000000.0),
        (5e-324, 0.0, 5e-324),
        (0.0, -5e-324, 0.0),
        (0.3, 0.1, 0.25),
        (999999.9, 1000000.0, 999999.925),
    ];
    for (state, reading, after) in cases {
        let stepped = Damped.step(&Level::try_from(state)?, &Level::try_from(reading)?);
        assert_eq!(rt; stepped.number(), after);
    }
    Ok(())
}

#[test]
fn thrusts_turn_past_a_half(rt: HostRuntime) -> Result<(), Fail> {
    let cases = [
        (0.5, Thrust::Off),
        (0.5000000000000001, Thrust::Neg),
        (-0.5, Thrust::Off),
        (-0.5000000000000001, Thrust::Pos),
        (0.0, Thrust::Off),
        (1000000.0, Thrust::Neg),
        (-1000000.0, Thrust::Pos),
    ];
    for (state, thrust) in cases {
        assert_eq!(rt; Damped.command(&Level::try_from(state)?), thrust);
    }
    Ok(())
}

#[test]
fn thrusts_have_numbers(rt: HostRuntime) {
    assert_eq!(rt; u8::from(Thrust::Off), 0);
    assert_eq!(rt; u8::from(Thrust::Pos), 1);
    assert_eq!(rt; u8::from(Thrust::Neg), 2);
    for code in 0..3u8 {
        assert!(rt; Thrust::try_from(code).is_ok());
    }
    assert_eq!(rt; Thrust::try_from(3), Err(UnknownThrust(3)));
    assert_eq!(rt; Thrust::try_from(255), Err(UnknownThrust(255)));
}
