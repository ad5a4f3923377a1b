use applications::level::Level;
use applications::wheel::Count;
use selections::first::First;
use selections::mid_value::MidValue;
use selections::{NO_SENSOR, Selection};
use values::Entry;
use values::entries::majority;

fn count(value: i32) -> Entry<Count> {
    Some(Count { value })
}

#[test]
fn no_candidate_is_no_sensor(rt: HostRuntime) {
    let none: [Entry<Count>; 3] = [None, None, None];
    assert_eq!(rt; MidValue.choose(&none), NO_SENSOR);
    assert_eq!(rt; First.choose(&none), NO_SENSOR);
    assert_eq!(rt; MidValue.choose(&none[0..0]), NO_SENSOR);
    assert_eq!(rt; First.choose(&none[0..0]), NO_SENSOR);
}

#[test]
fn equal_readings_give_the_lowest(rt: HostRuntime) {
    assert_eq!(rt; MidValue.choose(&[count(5), count(5), count(5)]), 0);
    assert_eq!(rt; MidValue.choose(&[None, count(5), count(5)]), 1);
    assert_eq!(rt;
        MidValue.choose(&[count(9), count(5), count(5), count(5)]),
        1
    );
    assert_eq!(rt; First.choose(&[None, count(5), count(5)]), 1);
}

// Odd and even numbers of candidates: of an even one the lower of the two in the middle.
#[test]
fn mid_values(rt: HostRuntime) {
    assert_eq!(rt; MidValue.choose(&[count(4)]), 0);
    assert_eq!(rt; MidValue.choose(&[count(7), count(-3)]), 1);
    assert_eq!(rt; MidValue.choose(&[count(3), count(1), count(2)]), 2);
    assert_eq!(rt;
        MidValue.choose(&[count(4), count(1), count(3), count(2)]),
        3
    );
    assert_eq!(rt; MidValue.choose(&[count(9), None, count(4), None]), 2);
    assert_eq!(rt;
        MidValue.choose(&[count(2147483647), count(-2147483648), count(0)]),
        2
    );
}

#[test]
fn mid_values_of_levels(rt: HostRuntime) {
    let levels = [
        Level::try_from(0.25).ok(),
        Level::try_from(-0.0).ok(),
        Level::try_from(2000000.0).ok(),
        Level::try_from(-1000000.0).ok(),
    ];
    assert_eq!(rt; MidValue.choose(&levels), 1);
}

fn vote(entries: &[Entry<Count>]) -> Option<i32> {
    majority(&entries).map(|x| x.value)
}

// More than half of those present, not of all.
#[test]
fn majorities(rt: HostRuntime) {
    assert_eq!(rt; vote(&[]), None);
    assert_eq!(rt; vote(&[None, None]), None);
    assert_eq!(rt; vote(&[None, count(1), None, None]), Some(1));
    assert_eq!(rt; vote(&[count(1), count(1), count(2)]), Some(1));
    assert_eq!(rt; vote(&[count(2), count(1), count(1)]), Some(1));
    assert_eq!(rt; vote(&[count(1), count(2)]), None);
    assert_eq!(rt; vote(&[count(1), count(1), count(2), count(2)]), None);
    assert_eq!(rt;
        vote(&[count(3), count(1), count(2), count(1), count(1)]),
        Some(1)
    );
}
