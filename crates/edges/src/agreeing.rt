ghost use Rattle.std.specs.Prelude.{◌<◌};

use layers::bus::Bus;
use layers::king::PhaseKing;
use layers::layer::{Instance, Layer};

// What the sound get among four replicas, of which replica 3 is faulty.
fn sound_of_four<L: Layer>(layer: &L, sender: usize, bit: bool, words: &[u8]) -> u16
    requires { sender < 4 }
{
    layer.deliver(&Instance {
        n: 4,
        f: 1,
        marks: 8,
        sender,
        bit,
        words,
    }) & 7
}

// What the sound get of the phase king among sixteen replicas, of which the first five are faulty.
fn sound_of_sixteen(sender: usize, bit: bool, words: &[u8]) -> u16
    requires { sender < 16 }
{
    PhaseKing.deliver(&Instance {
        n: 16,
        f: 5,
        marks: 31,
        sender,
        bit,
        words,
    }) & 65504
}

// A faulty sender's byte is yes only at 1, and no where it is absent; a sound sender's is not read.
#[test]
fn bus_reads_one_byte(rt: HostRuntime) {
    assert_eq!(rt; Bus.size(4, 1), 1);
    assert_eq!(rt; sound_of_four(&Bus, 3, true, &[1]), 7);
    assert_eq!(rt; sound_of_four(&Bus, 3, true, &[2]), 0);
    assert_eq!(rt; sound_of_four(&Bus, 3, true, &[255]), 0);
    assert_eq!(rt; sound_of_four(&Bus, 3, true, &[]), 0);
    assert_eq!(rt; sound_of_four(&Bus, 0, true, &[0]), 7);
    assert_eq!(rt; sound_of_four(&Bus, 0, false, &[1]), 0);
}

#[test]
fn king_sizes(rt: HostRuntime) {
    assert_eq!(rt; PhaseKing.size(4, 1), 76);
    assert_eq!(rt; PhaseKing.size(7, 2), 322);
    assert_eq!(rt; PhaseKing.size(16, 5), 3184);
}

// A sound sender's bit stands against a liar and against silence; a silent faulty sender says no.
#[test]
fn king_keeps_a_sound_bit(rt: HostRuntime) {
    assert_eq!(rt; sound_of_four(&PhaseKing, 0, true, &[0; 76]), 7);
    assert_eq!(rt; sound_of_four(&PhaseKing, 0, true, &[]), 7);
    assert_eq!(rt; sound_of_four(&PhaseKing, 0, false, &[]), 0);
    assert_eq!(rt; sound_of_four(&PhaseKing, 3, true, &[]), 0);
    assert_eq!(rt; sound_of_four(&PhaseKing, 3, true, &[2; 76]), 0);
}

// The first king is faulty and tells replica 1 yes and the others no: the second king, which is sound, brings all to one bit.
#[test]
fn king_outlasts_a_faulty_king(rt: HostRuntime) {
    let mut words = [2; 76];
    words[1] = 1;
    words[36 + 1] = 1;
    let instance = Instance {
        n: 4,
        f: 1,
        marks: 1,
        sender: 0,
        bit: true,
        words: &words,
    };
    let got = PhaseKing.deliver(&instance) & 14;
    assert!(rt; got == 0 || got == 14);
}

// At the largest size, with the first five kings faulty.
#[test]
fn king_of_sixteen(rt: HostRuntime) {
    assert_eq!(rt; sound_of_sixteen(15, true, &[0; 3184]), 65504);
    assert_eq!(rt; sound_of_sixteen(15, false, &[1; 3184]), 0);
    assert_eq!(rt; sound_of_sixteen(0, false, &[1; 3184]), 65504);
}
