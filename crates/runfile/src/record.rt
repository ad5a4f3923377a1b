// The records that follow the header.
ghost use Rattle.std.specs.Prelude.{◌≡◌, ◌+◌, ◌≤◌, length, Result};
ghost use Rattle.std.specs.Result.{result_map_both, IfOk};
ghost use Rattle.runfile.specs.Records.{part_of, tag_of, record_at};

use crate::fault::{Fault, Question};
use crate::header::u32_at;

// Which call a record stands for.
#[derive(Clone, Copy, PartialEq, Eq, Debug)]
pub enum Tag {
    Intake,
    Filter,
    Agree,
    Select,
    Commit,
    Abandon,
}

// A call, the place where its record starts, and what it is given, borrowed from the file.
#[derive(Clone, Copy)]
pub enum Record<'a> {
    Intake { at: usize, body: &'a [u8] },
    Filter { at: usize, body: &'a [u8] },
    Agree { at: usize, body: &'a [u8] },
    Select { at: usize, body: &'a [u8] },
    Commit { at: usize, body: &'a [u8] },
    Abandon { at: usize, body: &'a [u8] },
}

fn read_tag(b: u8, at: usize) -> Result<Tag, Fault>
    ensures { result ≡ tag_of b at }
{
    match b {
        1 => Ok(Tag::Intake),
        2 => Ok(Tag::Filter),
        3 => Ok(Tag::Agree),
        4 => Ok(Tag::Select),
        5 => Ok(Tag::Commit),
        6 => Ok(Tag::Abandon),
        _ => Err(Question::Tag.fault(at)),
    }
}

// The questions of the record that starts at `at`, in their order, and the record.
pub fn read_record<'a>(file: &'a [u8], at: usize) -> Result<Record<'a>, Fault>
    ensures told { result_map_both part_of (λ e. e) result ≡ record_at file.now at }
    ensures within { IfOk result (λ r. at + 5 + length (part_of r).body ≤ length file.now) }
{
    if file.len().saturating_sub(at) < 5 {
        return Err(Question::Bytes.fault(at));
    }
    let tag = read_tag(file[at], at)?;
    let len = u32_at(file, at + 1) as usize;
    let rest = &file[at + 5..];
    if rest.len() < len {
        return Err(Question::Bytes.fault(at));
    }
    let body = &rest[..len];
    Ok(match tag {
        Tag::Intake => Record::Intake { at, body },
        Tag::Filter => Record::Filter { at, body },
        Tag::Agree => Record::Agree { at, body },
        Tag::Select => Record::Select { at, body },
        Tag::Commit => Record::Commit { at, body },
        Tag::Abandon => Record::Abandon { at, body },
    })
}

impl<'a> Record<'a> {
    pub fn tag(&self) -> Tag
        ensures { result ≡ (part_of self.now).tag }
    {
        match self {
            Record::Intake { .. } => Tag::Intake,
            Record::Filter { .. } => Tag::Filter,
            Record::Agree { .. } => Tag::Agree,
            Record::Select { .. } => Tag::Select,
            Record::Commit { .. } => Tag::Commit,
            Record::Abandon { .. } => Tag::Abandon,
        }
    }

    pub fn body(&self) -> &'a [u8]
        ensures { result.now ≡ (part_of self.now).body }
    {
        match *self {
            Record::Intake { body, .. }
            | Record::Filter { body, .. }
            | Record::Agree { body, .. }
            | Record::Select { body, .. }
            | Record::Commit { body, .. }
            | Record::Abandon { body, .. } => body,
        }
    }
}
