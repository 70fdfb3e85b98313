// Theorems on the written forms: each function's contract is one.
ghost use Rattle.command.specs.Lines.{ReadsBack, TwinsReadAlike};

use crate::form::Form;

// Commands that are written to a file and read again are the same commands, on lines 1, 2, 3 and so on.
pub fn written_files_read_back<F: Form>()
    ensures { ReadsBack F.Form.line }
{}

// A text and its ledger twin give the same commands.
#[tactic(auto, using(crate::proofs::Twins::that_twins_read_alike))]
pub fn twin_files_read_alike()
    ensures { TwinsReadAlike }
{}
