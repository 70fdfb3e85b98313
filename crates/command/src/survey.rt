// What a reader has left, in numbers.
ghost use Rattle.std.specs.Prelude.{◌≡◌, None};
ghost use Rattle.command.specs.Lines.{noted, surveyed};

use crate::command::Item;
use crate::reader::Reader;
use std::fmt;

// How many lines and commands there are, and the first spoiled line.
#[derive(Clone, Copy, PartialEq, Eq, Debug, Default)]
pub struct Survey {
    pub lines: u32,
    pub commands: u32,
    pub spoiled: Option<u32>,
}

impl Survey {
    fn noted(self, item: Item) -> Survey
        ensures { result ≡ noted self item }
    {
        let lines = self.lines.saturating_add(1);
        match item.content {
            Some(_) => Survey {
                lines,
                commands: self.commands.saturating_add(1),
                spoiled: self.spoiled,
            },
            None => Survey {
                lines,
                commands: self.commands,
                spoiled: Some(self.spoiled.unwrap_or(item.line)),
            },
        }
    }

    // Takes the reader to its end.
    pub fn of<R: Reader + Drop>(mut reader: R) -> Survey
        ensures { result ≡ surveyed (record { lines = 0; commands = 0; spoiled = None }) (R.left reader) }
    {
        let mut survey = Survey::default();
        // A `while let`, since a `Reader` is no `Iterator`: see there.
        while let Some(item) = reader.next() {
            survey = survey.noted(item);
        }
        survey
    }
}

impl fmt::Display for Survey {
    fn fmt<W: fmt::Write>(&self, f: &mut fmt::Formatter<W>) -> fmt::Result {
        let lines = self.lines;
        let commands = self.commands;
        match self.spoiled {
            Some(line) => write!(
                f,
                "{lines} lines, {commands} commands, first spoiled line {line}"
            ),
            None => write!(f, "{lines} lines, {commands} commands, no spoiled line"),
        }
    }
}
