// The header of a run file: 22 bytes.
ghost use Rattle.std.specs.Prelude.{◌≡◌, ◌+◌, ◌≤◌, length};
ghost use Rattle.std.specs.Result.{result_map_both};
ghost use Rattle.runfile.specs.Numbers.{number_at};
ghost use Rattle.runfile.specs.Headers.{app_of, layer_of, selection_of, begins, says, zeros_of, start_of, header_of};

use crate::fault::{Fault, Question};
use crate::level::level_of_bits;
use applications::level::Level;
use applications::wheel::Count;

// The number in two bytes.
pub(crate) fn u16_at(bytes: &[u8], at: usize) -> u16
    requires { at + 2 ≤ length bytes.now }
    ensures { result ≡ number_at 2 at bytes.now }
{
    u16::from_le_bytes([bytes[at], bytes[at + 1]])
}

// The number in four bytes.
pub(crate) fn u32_at(bytes: &[u8], at: usize) -> u32
    requires { at + 4 ≤ length bytes.now }
    ensures { result ≡ number_at 4 at bytes.now }
{
    u32::from_le_bytes([bytes[at], bytes[at + 1], bytes[at + 2], bytes[at + 3]])
}

// The number in eight bytes.
pub(crate) fn u64_at(bytes: &[u8], at: usize) -> u64
    requires { at + 8 ≤ length bytes.now }
    ensures { result ≡ number_at 8 at bytes.now }
{
    u64::from_le_bytes([
        bytes[at],
        bytes[at + 1],
        bytes[at + 2],
        bytes[at + 3],
        bytes[at + 4],
        bytes[at + 5],
        bytes[at + 6],
        bytes[at + 7],
    ])
}

#[derive(Clone, Copy, PartialEq, Eq, Debug)]
pub enum AppKind {
    Wheel,
    Damped,
}

#[derive(Clone, Copy, PartialEq, Eq, Debug)]
pub enum LayerKind {
    Bus,
    King,
}

#[derive(Clone, Copy, PartialEq, Eq, Debug)]
pub enum SelectionKind {
    MidValue,
    First,
}

// A starting state, of either application.
#[derive(Clone, Copy)]
pub enum Start {
    Count(Count),
    Level(Level),
}

// What a header says; a starting state tells the application.
#[derive(Clone, Copy)]
pub struct Header {
    pub n: u8,
    pub f: u8,
    pub sensors: u8,
    pub marks: u16,
    pub layer: LayerKind,
    pub selection: SelectionKind,
    pub start: Start,
}

impl TryFrom<u8> for AppKind {
    type Error = Fault;

    ghost try_from_gives = { λ b answer. answer ≡ app_of b };

    fn try_from(b: u8) -> Result<AppKind, Fault> {
        match b {
            1 => Ok(AppKind::Wheel),
            2 => Ok(AppKind::Damped),
            _ => Err(Question::Kinds.fault(0)),
        }
    }
}

impl TryFrom<u8> for LayerKind {
    type Error = Fault;

    ghost try_from_gives = { λ b answer. answer ≡ layer_of b };

    fn try_from(b: u8) -> Result<LayerKind, Fault> {
        match b {
            1 => Ok(LayerKind::Bus),
            2 => Ok(LayerKind::King),
            _ => Err(Question::Kinds.fault(0)),
        }
    }
}

impl TryFrom<u8> for SelectionKind {
    type Error = Fault;

    ghost try_from_gives = { λ b answer. answer ≡ selection_of b };

    fn try_from(b: u8) -> Result<SelectionKind, Fault> {
        match b {
            1 => Ok(SelectionKind::MidValue),
            2 => Ok(SelectionKind::First),
            _ => Err(Question::Kinds.fault(0)),
        }
    }
}

// Whether the bytes that say nothing are zero.
fn has_zeros(app: AppKind, file: &[u8]) -> bool
    requires { 22 ≤ length file.now }
    ensures { result ≡ zeros_of app file.now }
{
    match app {
        AppKind::Wheel => file[13] == 0 && u32_at(file, 18) == 0,
        AppKind::Damped => file[13] == 0,
    }
}

fn read_start(app: AppKind, file: &[u8]) -> Result<Start, Fault>
    requires { 22 ≤ length file.now }
    ensures { result_map_both begins (λ e. e) result ≡ start_of app file.now }
{
    match app {
        AppKind::Wheel => Ok(Start::Count(Count {
            value: u32_at(file, 14).cast_signed(),
        })),
        AppKind::Damped => level_of_bits(u64_at(file, 14))
            .map(Start::Level)
            .ok_or(Question::Start.fault(0)),
    }
}

// The questions of the header, in their order, and what it says.
pub fn read_header(file: &[u8]) -> Result<Header, Fault>
    ensures { result_map_both says (λ e. e) result ≡ header_of file.now }
{
    if file.len() < 22 {
        return Err(Question::Bytes.fault(0));
    }
    if file[0] != b'E' || file[1] != b'G' || file[2] != b'R' {
        return Err(Question::Magic.fault(0));
    }
    if u16_at(file, 3) != 1 {
        return Err(Question::Version.fault(0));
    }
    let app = AppKind::try_from(file[10])?;
    let layer = LayerKind::try_from(file[11])?;
    let selection = SelectionKind::try_from(file[12])?;
    if !has_zeros(app, file) {
        return Err(Question::Zeros.fault(0));
    }
    let start = read_start(app, file)?;
    Ok(Header {
        n: file[5],
        f: file[6],
        sensors: file[7],
        marks: u16_at(file, 8),
        layer,
        selection,
        start,
    })
}
