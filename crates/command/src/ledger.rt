// The ledger form: 28 bytes, the code in 4 columns and three operands in 8 each, or a literal in 24, right-justified.
ghost use Rattle.std.specs.Prelude.{◌≡◌, ◌^◌, ◌<◌, ◌≤◌, true, false, length, drop, Decides};
ghost use Rattle.command.specs.Columns.{blanks, Stands};
ghost use Rattle.command.specs.declared.head.Operands.TheVariants.{Literal};
ghost use Rattle.command.specs.Heads.{used_by};
ghost use Rattle.command.specs.Meaning.{Writes};
ghost use Rattle.command.specs.Reads.{Reads};
ghost use Rattle.command.specs.Written.{NumberFits, Suits, ledger_operands, ledger_line};

use crate::command::Command;
use crate::head::{Head, Operands, Uses};
use crate::numeral::Numeral;

const LENGTH: usize = 28;

fn blanks_before(field: &[u8]) -> usize
    ensures { (result ≡ blanks field.now) × (result ≤ length field.now) }
{
    field.iter().take_while(|b| **b == b' ').count()
}

// The number in the field, right-justified.
fn number_in<N: Numeral>(field: &[u8]) -> Option<N>
    ensures { Reads (λ n. N.fits true n × Stands (N.written n) field.now) result }
{
    N::read(&field[blanks_before(field)..])
}

// The command with this code (and below, with these uses: see the text form) whose literal stands after it.
fn literal_operand(code: u32, line: &[u8]) -> Option<Command>
    requires { length line.now ≡ 28 }
    ensures { Reads (λ x. Suits (used_by Literal) code x × (ledger_operands true x ≡ drop 4 line.now)) result }
{
    let literal = number_in(&line[4..28])?;
    Some(Command {
        code,
        a: 0,
        b: 0,
        c: 0,
        literal,
    })
}

// A number that is not used is 0.
fn unused_are_zero(used: Uses, a: u32, b: u32, c: u32) -> bool
    requires { (a < 10 ^ 8) × ((b < 10 ^ 8) × (c < 10 ^ 8)) }
    ensures { Decides result (NumberFits used.a a × NumberFits used.b b × NumberFits used.c c) }
{
    (used.a || a == 0) && (used.b || b == 0) && (used.c || c == 0)
}

// The command with this code and these uses (as above) whose numbers stand after it.
fn number_operands(code: u32, used: Uses, line: &[u8]) -> Option<Command>
    requires { (length line.now ≡ 28) × (used.literal ≡ false) }
    ensures { Reads (λ x. Suits used code x × (ledger_operands false x ≡ drop 4 line.now)) result }
{
    let a = number_in(&line[4..12])?;
    let b = number_in(&line[12..20])?;
    let c = number_in(&line[20..28])?;
    if !unused_are_zero(used, a, b, c) {
        return None;
    }
    Some(Command {
        code,
        a,
        b,
        c,
        literal: 0,
    })
}

// The command that the line writes.
pub fn command_of(line: &[u8]) -> Option<Command>
    ensures { Reads (Writes ledger_line line.now) result }
{
    if line.len() != LENGTH {
        return None;
    }
    let code = number_in(&line[..4])?;
    let head = Head::from_code(code)?;
    match head.operands() {
        Operands::Literal => literal_operand(code, line),
        operands => number_operands(code, operands.uses(), line),
    }
}
