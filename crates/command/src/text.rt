// The text form: a head's word and its operands, single blanks between.
ghost use Rattle.std.specs.Prelude.{◌≡◌, ◌≤◌, ◌==◌, length, true, Decides};
ghost use Rattle.std.specs.List.{position_or_len};
ghost use Rattle.command.specs.Fields.{LetterFirst, Parted, Parts, Field, Optional, Begins};
ghost use Rattle.command.specs.Meaning.{Writes};
ghost use Rattle.command.specs.Reads.{Reads};
ghost use Rattle.command.specs.Written.{Suits, text_operands, text_line};

use crate::command::Command;
use crate::head::{Head, Uses};
use crate::numeral::Numeral;

// How many bytes stand before the first blank.
fn before_blank(line: &[u8]) -> usize
    ensures { (result ≡ position_or_len (λ b. b == 32) line.now) × (result ≤ length line.now) }
{
    line.iter().take_while(|b| **b != b' ').count()
}

// What stands before the first blank, and the rest.
fn parted(line: &[u8]) -> (&[u8], &[u8])
    ensures { Parts line.now result.0.now result.1.now }
{
    line.split_at(before_blank(line))
}

fn begins_with_letter(line: &[u8]) -> bool
    ensures { Decides result (LetterFirst line.now) }
{
    matches!(line.first(), Some(b'a'..=b'z'))
}

// The head whose word the line begins with, and the rest. The words are gone through only where one may stand: an empty line and
// one that begins with a blank or a digit, as a ledger's does, are many.
fn head_of(line: &[u8]) -> Option<(Head, &[u8])>
    ensures { Begins line.now result }
{
    if !begins_with_letter(line) {
        return None;
    }
    let (word, rest) = parted(line);
    let head = Head::from_word(word)?;
    Some((head, rest))
}

// The number that stands after a blank, and the rest.
fn number_after<N: Numeral>(line: &[u8]) -> Option<(N, &[u8])>
    ensures { Field N.written (N.fits true) line.now result }
{
    let (spelling, rest) = parted(line.strip_prefix(b" ")?);
    let n = N::read(spelling)?;
    Some((n, rest))
}

// The number where it is used, and else 0. An `if` on a flag: a closure in its place would be given the same flag.
fn number_if<N: Numeral>(used: bool, line: &[u8]) -> Option<(N, &[u8])>
    requires { Parted line.now }
    ensures { Optional N.written N.fits used line.now result }
{
    if used {
        number_after(line)
    } else {
        Some((N::unused(), line))
    }
}

// The command with this code whose operands these are. Not its head, since each step of the proof would carry that code and uses are the head's.
fn operands_of(code: u32, used: Uses, line: &[u8]) -> Option<Command>
    requires { Parted line.now }
    ensures { Reads (λ x. Suits used code x × (line.now ≡ text_operands used x)) result }
{
    let (a, after_a) = number_if(used.a, line)?;
    let (b, after_b) = number_if(used.b, after_a)?;
    let (c, after_c) = number_if(used.c, after_b)?;
    let (literal, rest) = number_if(used.literal, after_c)?;
    if !rest.is_empty() {
        return None;
    }
    Some(Command {
        code,
        a,
        b,
        c,
        literal,
    })
}

// The command that the line writes.
pub fn command_of(line: &[u8]) -> Option<Command>
    ensures { Reads (Writes text_line line.now) result }
{
    let (head, operands) = head_of(line)?;
    operands_of(head.code(), head.operands().uses(), operands)
}
