// What the records are given: entries, decoded into lent tables.
ghost use Rattle.std.specs.Prelude.{◌≡◌, ℕ, ◌+◌, ◌*◌, ◌^◌, ◌<◌, ◌≤◌, List, length, get_or, Option, Some, None, ℤ, cond, nat_lt, Float};
ghost use Rattle.std.specs.Int.{w16, w32, cast_signed};
ghost use Rattle.std.specs.Option.{option_map, MatchOption};
ghost use Rattle.applications.specs.Thrusts.{code_of};
ghost use Rattle.runfile.specs.Bodies.{sized, entry_of, Decoded, EntriesRead, WordsRead};
ghost use Rattle.runfile.specs.Levels.{level_in};
ghost use Rattle.runfile.specs.Numbers.{number_at};

use crate::fault::{Fault, Question};
use crate::header::{u16_at, u32_at, u64_at};
use crate::level::level_of_bits;
use applications::damped::Thrust;
use applications::level::Level;
use applications::wheel::{Count, Torque};
use values::Entry;

// A thing that a run file writes in a fixed number of bytes.
pub trait Encoded: Copy {
    // What a thing says.
    ghost Says: { Type 0 };

    ghost says: { Self → Says };

    ghost size: { ℕ };

    // What bytes say: an entry, or nothing where no thing is written so.
    ghost decoded: { List ℕ → Option (Option Says) };

    fn width() -> u8
        ensures { result ≡ size };

    // Bytes of another number are no thing.
    fn decode(bytes: &[u8]) -> Option<Entry<Self>>
        ensures { option_map (option_map says) result ≡ sized size decoded bytes.now };
}

// A wheel's reading or state: four bytes.
impl Encoded for Count {
    ghost Says = { ℤ };

    ghost says = { λ c. c.value };

    ghost size = { 4 };

    ghost decoded = { λ bytes. Some (Some (cast_signed w32 (number_at 4 0 bytes))) };

    fn width() -> u8 {
        4
    }

    fn decode(bytes: &[u8]) -> Option<Entry<Count>> {
        if bytes.len() != 4 {
            return None;
        }
        let value = u32_at(bytes, 0).cast_signed();
        Some(Some(Count { value }))
    }
}

// A wheel's command: two bytes.
impl Encoded for Torque {
    ghost Says = { ℤ };

    ghost says = { λ t. t.value };

    ghost size = { 2 };

    ghost decoded = { λ bytes. Some (Some (cast_signed w16 (number_at 2 0 bytes))) };

    fn width() -> u8 {
        2
    }

    fn decode(bytes: &[u8]) -> Option<Entry<Torque>> {
        if bytes.len() != 2 {
            return None;
        }
        let value = u16_at(bytes, 0).cast_signed();
        Some(Some(Torque { value }))
    }
}

// A damped reading or state: eight bytes, of which a number that does not qualify makes a missing entry.
impl Encoded for Level {
    ghost Says = { Float };

    ghost says = { λ l. l.value };

    ghost size = { 8 };

    ghost decoded = { λ bytes. Some (level_in (number_at 8 0 bytes)) };

    fn width() -> u8 {
        8
    }

    fn decode(bytes: &[u8]) -> Option<Entry<Level>> {
        if bytes.len() != 8 {
            return None;
        }
        Some(level_of_bits(u64_at(bytes, 0)))
    }
}

// A damped command: a byte from 0 to 2.
impl Encoded for Thrust {
    ghost Says = { ℕ };

    ghost says = { code_of };

    ghost size = { 1 };

    ghost decoded = { λ bytes. cond (nat_lt (get_or bytes 0 0) 3) (Some (Some (get_or bytes 0 0))) None };

    fn width() -> u8 {
        1
    }

    fn decode(bytes: &[u8]) -> Option<Entry<Thrust>> {
        if bytes.len() != 1 {
            return None;
        }
        Thrust::try_from(bytes[0]).ok().map(Some)
    }
}

// The entry in its bytes: a presence byte, and the thing behind it, which is not looked at where it is missing.
fn read_entry<T: Encoded>(bytes: &[u8]) -> Option<Entry<T>>
    requires { length bytes.now ≡ T.Encoded.size + 1 }
    ensures { option_map (option_map T.Encoded.says) result ≡ entry_of T.Encoded.size T.Encoded.decoded bytes.now }
{
    match bytes[0] {
        0 => Some(None),
        1 => T::decode(&bytes[1..]),
        _ => None,
    }
}

// The entries of a body, decoded into a table that they fill.
fn fill<T: Encoded>(table: &mut [Entry<T>], body: &[u8], at: usize) -> Result<(), Fault>
    requires { length body.now ≡ length table.old * (T.Encoded.size + 1) }
    ensures long { length table.new ≡ length table.old }
    ensures told { Decoded T.Encoded.says T.Encoded.size T.Encoded.decoded body.now at (length table.old) table.new result }
{
    let size = usize::from(T::width()) + 1;
    for i in 0..table.len() {
        let bytes = &body[i * size..i * size + size];
        table[i] = read_entry(bytes).ok_or(Question::Presence.fault(at))?;
    }
    Ok(())
}

// How many bytes so many entries take.
fn extent<T: Encoded>(count: usize) -> Option<usize>
    ensures { MatchOption result (2 ^ 64 ≤ count * (T.Encoded.size + 1)) (λ bytes. bytes ≡ count * (T.Encoded.size + 1)) }
{
    count.checked_mul(usize::from(T::width()) + 1)
}

// The entries of an intake or a filter: asks how long the body is, and decodes it into the table.
pub fn read_entries<T: Encoded>(table: &mut [Entry<T>], body: &[u8], at: usize) -> Result<(), Fault>
    ensures { EntriesRead T.Encoded.says T.Encoded.size T.Encoded.decoded body.now at table.old table.new result }
{
    if extent::<T>(table.len()) != Some(body.len()) {
        return Err(Question::Length.fault(at));
    }
    fill(table, body, at)
}

// The words of a commit, states and then commands: asks how long the body is, and decodes it into the two tables.
pub fn read_words<S: Encoded, C: Encoded>(
    states: &mut [Entry<S>],
    commands: &mut [Entry<C>],
    body: &[u8],
    at: usize,
) -> Result<(), Fault>
    ensures { WordsRead S.Encoded.says S.Encoded.size S.Encoded.decoded C.Encoded.says C.Encoded.size C.Encoded.decoded body.now at states.old states.new commands.old commands.new result }
{
    let fault = Question::Length.fault(at);
    let front = extent::<S>(states.len()).ok_or(fault)?;
    let back = extent::<C>(commands.len()).ok_or(fault)?;
    if front.checked_add(back) != Some(body.len()) {
        return Err(fault);
    }
    let (front, back) = body.split_at(front);
    fill(states, front, at)?;
    fill(commands, back, at)
}
