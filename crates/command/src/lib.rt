// Commands, their written forms, and readers of files of commands.
#![tactic(auto)]

pub mod command;
pub mod form;
pub mod head;
pub mod laws;
mod ledger;
pub mod line_reader;
mod numeral;
pub mod reader;
pub mod survey;
#[cfg(test)]
mod tests;
mod text;

use form::{Ledger, Text};
use line_reader::LineReader;

pub type TextReader<'a> = LineReader<'a, Text>;

pub type LedgerReader<'a> = LineReader<'a, Ledger>;
