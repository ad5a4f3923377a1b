// Lines of the output.
#![tactic(auto)]

ghost use Rattle.std.specs.Iterator.{IsFinite};

use anyhow::Result;
use applications::wheel::{Count, Torque};
use std::fmt::{self, Display};
use values::Entry;

// A reading as a line has it: `-` for none.
#[derive(Clone, Copy)]
pub struct Reading(pub Entry<Count>);

impl Display for Reading {
    fn fmt<W: fmt::Write>(&self, f: &mut fmt::Formatter<W>) -> fmt::Result {
        match self.0 {
            Some(x) => write!(f, "{x}"),
            None => f.write_str("-"),
        }
    }
}

// What the line tells of, and its items.
pub fn show_row<I: Iterator + Drop>(rt: &HostRuntime, title: &str, items: I) -> Result<()>
where
    I::Item: Display + Drop,
    requires can { I.can_next items }
    requires ends { IsFinite (I.remaining items) }
{
    print!(rt; "  {title}")?;
    for item in items {
        print!(rt; " {item}")?;
    }
    println!(rt; "")?;
    Ok(())
}

pub fn show_vote(rt: &HostRuntime, vote: Entry<Torque>) -> Result<()> {
    match vote {
        Some(torque) => println!(rt; "  vote {torque}")?,
        None => println!(rt; "  no majority: safe mode")?,
    }
    Ok(())
}
