// Run files: what the header, the records and their bodies say; and what is refused, by which number and where.
use applications::damped::Thrust;
use applications::level::Level;
use applications::wheel::{Count, Torque};
use runfile::body::{Encoded, read_entries, read_words};
use runfile::fault::{Fault, Source};
use runfile::header::{LayerKind, SelectionKind, Start, read_header};
use runfile::record::{Tag, read_record};
use values::Entry;

// A header: four replicas, of which at most one is faulty, 3; three sensors; the wheel over the bus, the mid-value, from −2.
const HEADER: [u8; 22] = [
    69, 71, 82, 1, 0, 4, 1, 3, 8, 0, 1, 1, 1, 0, 254, 255, 255, 255, 0, 0, 0, 0,
];

// The number that the header is refused by with other bytes at these places, and 0 where it is not.
fn number_with(changes: &[(usize, u8)]) -> u8 {
    let mut file = HEADER;
    for (at, byte) in changes {
        if let Some(b) = file.get_mut(*at) {
            *b = *byte;
        }
    }
    match read_header(&file) {
        Ok(_) => 0,
        Err(fault) => fault.number,
    }
}

#[test]
fn header_says(rt: HostRuntime) {
    let header = read_header(&HEADER).ok();
    assert_eq!(rt;
        header.map(|h| (h.n, h.f, h.sensors, h.marks)),
        Some((4, 1, 3, 8))
    );
    assert_eq!(rt; header.map(|h| h.layer), Some(LayerKind::Bus));
    assert_eq!(rt; header.map(|h| h.selection), Some(SelectionKind::MidValue));
    let start = header.and_then(|h| match h.start {
        Start::Count(count) => Some(count.value),
        Start::Level(_) => None,
    });
    assert_eq!(rt; start, Some(-2));
}

#[test]
fn header_is_refused(rt: HostRuntime) {
    assert_eq!(rt; number_with(&[]), 0);
    assert_eq!(rt; number_with(&[(2, 83)]), 12);
    assert_eq!(rt; number_with(&[(4, 1)]), 13);
    assert_eq!(rt; number_with(&[(10, 3)]), 14);
    assert_eq!(rt; number_with(&[(11, 0)]), 14);
    assert_eq!(rt; number_with(&[(12, 3)]), 14);
    assert_eq!(rt; number_with(&[(13, 1)]), 15);
    assert_eq!(rt; number_with(&[(21, 1)]), 15);
    assert_eq!(rt; number_with(&[(10, 2)]), 0);
    assert_eq!(rt; number_with(&[(10, 2), (20, 240), (21, 127)]), 16);
    assert_eq!(rt; number_with(&[(10, 2), (20, 240), (21, 255)]), 16);
}

// Of two faults the question that comes first is told.
#[test]
fn first_question_is_told(rt: HostRuntime) {
    assert_eq!(rt; number_with(&[(0, 0), (3, 0)]), 12);
    assert_eq!(rt; number_with(&[(3, 0), (10, 0)]), 13);
    assert_eq!(rt; number_with(&[(12, 0), (13, 1)]), 14);
    assert_eq!(rt; number_with(&[(10, 2), (13, 1), (20, 240), (21, 127)]), 15);
}

// A header that is cut off.
#[test]
fn header_is_cut(rt: HostRuntime) {
    for n in 0..22 {
        let number = read_header(&HEADER[..n]).err().map(|fault| fault.number);
        assert_eq!(rt; number, Some(11));
    }
}

// What the record at `at` is: its call, and how long its body is.
fn record(file: &[u8], at: usize) -> Result<(Tag, usize), Fault> {
    let record = read_record(file, at)?;
    Ok((record.tag(), record.body().len()))
}

#[test]
fn records(rt: HostRuntime) {
    let file = [3, 2, 0, 0, 0, 7, 8, 6, 0, 0, 0, 0, 0, 1];
    assert_eq!(rt; record(&file, 0), Ok((Tag::Agree, 2)));
    assert_eq!(rt; record(&file, 7), Ok((Tag::Abandon, 0)));
    let cut = Fault {
        number: 11,
        at: 12,
        source: Source::Reader,
    };
    assert_eq!(rt; record(&file, 12), Err(cut));
    assert_eq!(rt; record(&file, 99), Err(Fault { at: 99, ..cut }));
    assert_eq!(rt; record(&[1, 1, 0, 0, 0], 0), Err(Fault { at: 0, ..cut }));
    assert_eq!(rt;
        record(&[7, 1, 0, 0, 0], 0),
        Err(Fault {
            number: 17,
            at: 0,
            ..cut
        })
    );
}

// The entries of a body of two, or the number that it is refused by.
fn two<T: Encoded>(body: &[u8]) -> Result<[Entry<T>; 2], u8> {
    let mut table = [None; 2];
    match read_entries(&mut table, body, 5) {
        Ok(()) => Ok(table),
        Err(fault) => Err(fault.number),
    }
}

#[test]
fn entries(rt: HostRuntime) {
    let body = [1, 254, 255, 255, 255, 0, 9, 9, 9, 9, 9];
    assert_eq!(rt; two(&body[..10]), Ok([Some(Count { value: -2 }), None]));
    assert_eq!(rt; two::<Count>(&body[..9]), Err(18));
    assert_eq!(rt; two::<Count>(&body), Err(18));
    assert_eq!(rt; two::<Count>(&[2, 0, 0, 0, 0, 0, 0, 0, 0, 0]), Err(19));
    assert_eq!(rt; two(&[0, 9, 1, 2]), Ok([None, Some(Thrust::Neg)]));
    assert_eq!(rt; two::<Thrust>(&[0, 9, 1, 3]), Err(19));
}

// A number that does not qualify makes a missing entry.
#[test]
fn levels(rt: HostRuntime) {
    let infinity = [1, 0, 0, 0, 0, 0, 0, 240, 127, 1, 0, 0, 0, 0, 0, 0, 240, 63];
    let read: Result<[Entry<Level>; 2], u8> = two(&infinity);
    let numbers = read.map(|[a, b]| (a.map(|l| l.number()), b.map(|l| l.number())));
    assert_eq!(rt; numbers, Ok((None, Some(1.0))));
}

#[test]
fn words(rt: HostRuntime) {
    let body = [0, 9, 9, 9, 9, 1, 254, 255];
    let mut states = [Some(Count { value: 1 })];
    let mut commands: [Entry<Torque>; 1] = [None];
    assert_eq!(rt; read_words(&mut states, &mut commands, &body, 5), Ok(()));
    assert_eq!(rt; states, [None]);
    assert_eq!(rt; commands, [Some(Torque { value: -2 })]);
    let fault = Fault {
        number: 18,
        at: 5,
        source: Source::Reader,
    };
    assert_eq!(rt;
        read_words(&mut states, &mut commands, &body[..7], 5),
        Err(fault)
    );
}
