// Why a run is refused: the question that was answered no, where, and who asked it.
ghost use Rattle.std.specs.Prelude.{◌≡◌};
ghost use Rattle.runfile.specs.Faults.{number_of, source_of, fault_at};

// Who asks.
#[derive(Clone, Copy, PartialEq, Eq, Debug)]
pub enum Source {
    Cluster,
    Reader,
    Runner,
}

// What the reader and the runner ask of a file.
#[derive(Clone, Copy, PartialEq, Eq, Debug)]
pub enum Question {
    Bytes = 11,
    Magic = 12,
    Version = 13,
    Kinds = 14,
    Zeros = 15,
    Start = 16,
    Tag = 17,
    Length = 18,
    Presence = 19,
    Turn = 20,
    FileSize = 21,
}

// The number of the question, the start of the record that it was asked of (0 for the header and for the file), and who asked.
#[derive(Clone, Copy, PartialEq, Eq, Debug)]
pub struct Fault {
    pub number: u8,
    pub at: usize,
    pub source: Source,
}

impl Question {
    pub fn number(&self) -> u8
        ensures { result ≡ number_of self.now }
    {
        *self as u8
    }

    pub fn source(&self) -> Source
        ensures { result ≡ source_of self.now }
    {
        match self {
            Question::Turn | Question::FileSize => Source::Runner,
            _ => Source::Reader,
        }
    }

    // A no to this question, asked of the record that starts at `at`.
    pub fn fault(&self, at: usize) -> Fault
        ensures { result ≡ fault_at self.now at }
    {
        Fault {
            number: self.number(),
            at,
            source: self.source(),
        }
    }
}
