// Commands as a reader hands them out.

// A head's code with its operands, as the numbers come: the code may be no head's, so it is no `Head`. What a head does not use is ignored.
#[derive(Clone, Copy, PartialEq, Eq, Debug)]
pub struct Command {
    pub code: u32,
    pub a: u32,
    pub b: u32,
    pub c: u32,
    pub literal: i64,
}

// What stands in a line of a file, and the line's number from 1. A spoiled line holds no command.
#[derive(Clone, Copy, PartialEq, Eq, Debug)]
pub struct Item {
    pub line: u32,
    pub content: Option<Command>,
}
