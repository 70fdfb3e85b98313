// The two written forms of commands, and what both have in common.
ghost use Rattle.std.specs.Prelude.{◌≡◌, ℕ, List};
ghost use Rattle.command.specs.declared.command.Command.{Command as Written};
ghost use Rattle.command.specs.declared.head.Head.{Head};
ghost use Rattle.command.specs.Lines.{LinesUnbroken};
ghost use Rattle.command.specs.Meaning.{Apart, Means, Writes, meaning};
ghost use Rattle.command.specs.Reads.{Reads};
ghost use Rattle.command.specs.Written.{text_line, ledger_line};
ghost use Rattle.command.specs.TextLines.{text_apart};
ghost use Rattle.command.specs.Unbroken.{text_unbroken, ledger_unbroken};
ghost use Rattle.command.specs.LedgerLines.{ledger_apart};

use crate::command::Command;
use crate::{ledger, text};

// A way to write each command as a line of its own. A line means the command whose line it is, if there is one.
pub trait Form {
    ghost line: { Head → Written → List ℕ };

    // The command that the line writes.
    fn command_of(bytes: &[u8]) -> Option<Command>
        ensures { Reads (Writes line bytes.now) result };

    ghost apart: { Apart line };

    ghost unbroken: { LinesUnbroken line };

    // The command that the line means.
    final fn read(bytes: &[u8]) -> Option<Command>
        ensures value { result ≡ meaning line bytes.now }
        ensures means { Means line bytes.now result }
    {
        Self::command_of(bytes)
    }
}

pub struct Text;

impl Form for Text {
    ghost line = { text_line };

    ghost apart = { text_apart };

    ghost unbroken = { text_unbroken };

    fn command_of(bytes: &[u8]) -> Option<Command> {
        text::command_of(bytes)
    }
}

pub struct Ledger;

impl Form for Ledger {
    ghost line = { ledger_line };

    ghost apart = { ledger_apart };

    ghost unbroken = { ledger_unbroken };

    fn command_of(bytes: &[u8]) -> Option<Command> {
        ledger::command_of(bytes)
    }
}
