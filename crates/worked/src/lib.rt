// The examples worked out by hand: theorems about the definitions, and the code's own answers.
#![tactic(auto)]

ghost use Rattle.std.specs.Prelude.{◌≡◌, true, false, ℕ, ◌<◌, pos, Some, None};
ghost use Rattle.quorum.specs.Counting.{bit};
ghost use Rattle.layers.specs.King.{king};
ghost use Rattle.applications.specs.Wheel.{torque_of};
ghost use Rattle.worked.specs.Examples.{Worked};

use applications::wheel::{Count, Wheel};
use layers::king::PhaseKing;
use layers::layer::{Instance, Layer};
use selections::Selection;
use selections::mid_value::MidValue;
use values::entries::majority;
use values::{Application, Entry};

// What the code answers on the examples.
#[derive(Clone, Copy)]
pub struct Answers {
    pub two_to_one: Entry<Count>,
    pub one_to_one: Entry<Count>,
    pub middle: u8,
    pub torque_lowest: i16,
    pub torque_minus_one: i16,
    pub torque_short: i16,
    pub step_held: i32,
    pub king_two_faced: u16,
    pub king_contradicted: u16,
}

// Runs the examples, with a and b any two counts.
pub fn examples(a: Count, b: Count) -> Answers
    ensures worked { Worked a b }
    ensures two { (a ≡ b → ⊥) → result.two_to_one ≡ Some a }
    ensures one { (a ≡ b → ⊥) → result.one_to_one ≡ None }
    ensures middle { result.middle ≡ 1 }
    ensures lowest { result.torque_lowest ≡ pos 32767 }
    ensures minus_one { result.torque_minus_one ≡ pos 0 }
    ensures short { result.torque_short ≡ pos 0 }
    ensures held { result.step_held ≡ pos 2147483647 }
    ensures two_faced { (i : ℕ) → i < 3 → bit result.king_two_faced i ≡ true }
    ensures contradicted { (i : ℕ) → i < 3 → bit result.king_contradicted i ≡ false }
{
    let three: &[Entry<Count>] = &[Some(a), Some(a), Some(b)];
    let two: &[Entry<Count>] = &[Some(a), Some(b)];
    let readings = [Some(Count { value: 7 }), Some(Count { value: -3 })];
    Answers {
        two_to_one: majority(&three),
        one_to_one: majority(&two),
        middle: MidValue.choose(&readings),
        torque_lowest: torque(-2147483648),
        torque_minus_one: torque(-1),
        torque_short: torque(65535),
        step_held: Wheel
            .step(&Count { value: 2147483647 }, &Count { value: 1 })
            .value,
        king_two_faced: king_of_four(3, &[1, 0, 1]),
        king_contradicted: king_of_four(0, &[1; 76]),
    }
}

// The phase king with four replicas, of which replica 3 may be faulty, and a sender whose bit is no.
fn king_of_four(sender: usize, words: &[u8]) -> u16
    requires { sender < 4 }
    ensures { (i : ℕ) → i < 3 → bit result i ≡ king 4 1 8 sender false words.now i }
{
    PhaseKing.deliver(&Instance {
        n: 4,
        f: 1,
        marks: 8,
        sender,
        bit: false,
        words,
    })
}

fn torque(state: i32) -> i16
    ensures { result ≡ torque_of state }
{
    Wheel.command(&Count { value: state }).value
}
