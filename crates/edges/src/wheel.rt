use applications::wheel::{Count, Wheel};
use values::Application;

// Held at both ends of the range, and exact short of them.
#[test]
fn steps_are_held(rt: HostRuntime) {
    let cases = [
        (2147483647, 1, 2147483647),
        (2147483647, 2147483647, 2147483647),
        (2147483646, 1, 2147483647),
        (-2147483648, -1, -2147483648),
        (-2147483648, -2147483648, -2147483648),
        (-2147483647, -1, -2147483648),
        (2147483647, -2147483648, -1),
        (5, -7, -2),
    ];
    for (state, reading, after) in cases {
        let stepped = Wheel.step(&Count { value: state }, &Count { value: reading });
        assert_eq!(rt; stepped.value, after);
    }
}

// Rounded toward zero on both sides of it, and held at 32,767.
#[test]
fn commands_are_rounded_toward_zero(rt: HostRuntime) {
    let cases = [
        (0, 0),
        (65535, 0),
        (65536, -1),
        (131071, -1),
        (-1, 0),
        (-65535, 0),
        (-65536, 1),
        (2147483647, -32767),
        (-2147483648, 32767),
        (-2147418112, 32767),
        (-2147352577, 32766),
    ];
    for (state, torque) in cases {
        assert_eq!(rt; Wheel.command(&Count { value: state }).value, torque);
    }
}
