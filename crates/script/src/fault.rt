ghost use Rattle.std.specs.Prelude.{◌≡◌};
ghost use Rattle.script.specs.declared.fault.ScriptFault.TheVariants.{Refused};
ghost use Rattle.script.specs.Faults.{line_of, number, letter, place};

use run::state::RunFault;

// Why a line is refused; each case holds the number of the line.
#[derive(Clone, Copy, Debug, PartialEq, Eq)]
pub enum ScriptFault {
    SmallBuffers(u32),
    NoCommand(u32),
    // The run's own fault, unchanged.
    Refused(u32, RunFault),
}

// A fault of the run, and the line that caused it.
#[derive(Clone, Copy, Debug, PartialEq, Eq)]
pub struct AtLine {
    pub line: u32,
    pub fault: RunFault,
}

impl From<AtLine> for ScriptFault {
    ghost from_gives = { λ e r. r ≡ Refused e.line e.fault };

    fn from(e: AtLine) -> ScriptFault {
        ScriptFault::Refused(e.line, e.fault)
    }
}

impl ScriptFault {
    // The line that is refused.
    pub fn line(self) -> u32
        ensures { result ≡ line_of self }
    {
        match self {
            ScriptFault::SmallBuffers(line)
            | ScriptFault::NoCommand(line)
            | ScriptFault::Refused(line, _) => line,
        }
    }

    // 24, 25, or the number of the run's fault.
    pub fn number(self) -> u8
        ensures { result ≡ number self }
    {
        match self {
            ScriptFault::SmallBuffers(_) => 24,
            ScriptFault::NoCommand(_) => 25,
            ScriptFault::Refused(_, fault) => fault.number(),
        }
    }

    // The layer, as a letter.
    pub fn letter(self) -> u8
        ensures { result ≡ letter self }
    {
        match self {
            ScriptFault::SmallBuffers(_) | ScriptFault::NoCommand(_) => b's',
            ScriptFault::Refused(_, fault) => fault.letter(),
        }
    }

    // The line, or the place of the run's fault.
    pub fn place(self) -> u32
        ensures { result ≡ place self }
    {
        match self {
            ScriptFault::SmallBuffers(line) | ScriptFault::NoCommand(line) => line,
            ScriptFault::Refused(_, fault) => fault.place(),
        }
    }
}
