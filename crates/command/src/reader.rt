// Readers of commands.
ghost use Rattle.std.specs.Prelude.{◌≡◌, List};
ghost use Rattle.command.specs.declared.command.Item.{Item as Listed};
ghost use Rattle.command.specs.Lines.{next_of, rest_of, Numbered};

use crate::command::Item;

// A reader has a list of items left. Asking for the next hands out the first and keeps the rest; at the end it says so each time.
// Not an `Iterator`, which is no plainer: generic callers rest on `left` and on the numbers' range, of which its `next` says nothing.
pub trait Reader {
    ghost left: { Self → List Listed };

    fn next(&mut self) -> Option<Item>
        ensures numbered { Numbered (left self.old) }
        ensures item { result ≡ next_of (left self.old) }
        ensures rest { left self.new ≡ rest_of (left self.old) };
}
