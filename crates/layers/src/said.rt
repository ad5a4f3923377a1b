// What replicas say to one another, and how it is counted.
ghost use Rattle.std.specs.Prelude.{◌≡◌, ◌+◌, ◌<◌, true, false, if◌then◌else◌};
ghost use Rattle.layers.specs.declared.said.Said.{Said};
ghost use Rattle.layers.specs.declared.said.Said.TheVariants.{Silent};
ghost use Rattle.layers.specs.King.{says, aloud as bit_aloud, said, enough, takes};
ghost use Rattle.layers.specs.Views.{counted};

// Silent stands first: it is what an empty table holds.
#[derive(Clone, Copy)]
pub enum Said {
    Silent,
    Yes,
    No,
}

// How many said yes, and how many no.
#[derive(Clone, Copy, Default)]
pub struct Tally {
    pub yes: usize,
    pub no: usize,
}

// The bit that a replica took from the proposals, and whether enough proposed it to keep it against the king: no option, since a king gives its bit either way.
#[derive(Clone, Copy, Default)]
pub struct Taken {
    pub bit: bool,
    pub firm: bool,
}

// What a replica has and says to all in a round; `From` would promise a relation where a tally needs a function.
pub trait Message: Copy {
    // what it says
    ghost aloud: { Self → Said };

    // what a table reads as past its end
    ghost absent: { Self };

    fn say(self) -> Said
        ensures { result ≡ aloud self };
}

// A bit, as a vote says it.
impl Message for bool {
    ghost aloud = { bit_aloud };

    ghost absent = { false };

    fn say(self) -> Said {
        if self { Said::Yes } else { Said::No }
    }
}

// A proposal, said as it is.
impl Message for Said {
    ghost aloud = { λ s. s };

    ghost absent = { Silent };

    fn say(self) -> Said {
        self
    }
}

// What a byte of votes or proposals says.
impl From<u8> for Said {
    ghost from_gives = { λ byte s. s ≡ said byte };

    fn from(byte: u8) -> Said {
        match byte {
            1 => Said::Yes,
            0 => Said::No,
            _ => Said::Silent,
        }
    }
}

impl Said {
    // The bit of a replica that had `own` and then heard enough of this.
    pub fn or(self, own: bool) -> bool
        ensures { result ≡ takes self own }
    {
        match self {
            Said::Yes => true,
            Said::No => false,
            Said::Silent => own,
        }
    }
}

impl Tally {
    // The tally with one more said.
    pub fn with(self, s: Said) -> Tally
        requires yes { self.yes < 16 }
        requires no { self.no < 16 }
        ensures yes { result.yes ≡ self.yes + (if says true s then 1 else 0) }
        ensures no { result.no ≡ self.no + (if says false s then 1 else 0) }
    {
        // By cases, since adding the two tests as numbers takes a quarter more instructions.
        match s {
            Said::Yes => Tally {
                yes: self.yes + 1,
                ..self
            },
            Said::No => Tally {
                no: self.no + 1,
                ..self
            },
            Said::Silent => self,
        }
    }

    // How many said the bit.
    pub fn of(self, bit: bool) -> usize
        ensures { result ≡ counted self bit }
    {
        if bit { self.yes } else { self.no }
    }

    // The bit that at least `least` said, yes asked first.
    pub fn enough(self, least: usize) -> Said
        ensures { result ≡ enough least (counted self) }
    {
        if least <= self.yes {
            Said::Yes
        } else if least <= self.no {
            Said::No
        } else {
            Said::Silent
        }
    }
}
