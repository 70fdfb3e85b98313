// A reader of a file's lines.
ghost use Rattle.std.specs.Prelude.{◌+◌, ◌≤◌, length};

use crate::command::Item;
use crate::form::Form;
use crate::reader::Reader;
use std::marker::PhantomData;

const MOST_BYTES: usize = 99_999_998;

// What is left of a file, and the number of its first line.
#[derive(Drop)]
pub struct LineReader<'a, F: Form> {
    rest: &'a [u8],
    line: u32,
    form: PhantomData<F>,
    ghost few: { (1 ≤ line) × (line + length rest.now ≤ 99_999_999) },
}

impl<'a, F: Form> LineReader<'a, F> {
    ghost use Rattle.std.specs.Prelude.{◌≡◌, min};
    ghost use Rattle.command.specs.Lines.{remaining, items, Numbered, Step};

    // The file's lines from the first; a file with more bytes than the limit is one spoiled line.
    pub fn within(limit: usize, bytes: &'a [u8]) -> LineReader<'a, F>
        ensures { remaining F.Form.line result.line result.rest.now ≡ items F.Form.line (min limit 99_999_998) bytes.now }
    {
        let rest = if bytes.len() > limit.min(MOST_BYTES) {
            b"?"
        } else {
            bytes
        };
        LineReader {
            rest,
            line: 1,
            form: PhantomData,
        }
    }

    // The same with the largest limit, 99,999,998 bytes.
    pub fn new(bytes: &'a [u8]) -> LineReader<'a, F>
        ensures { remaining F.Form.line result.line result.rest.now ≡ items F.Form.line 99_999_998 bytes.now }
    {
        LineReader::within(MOST_BYTES, bytes)
    }

    // The first item of what is left, and the bytes after it.
    fn first_item(&self) -> Option<(Item, &'a [u8])>
        ensures numbered { Numbered (remaining F.Form.line self.now.line self.now.rest.now) }
        ensures step { Step F.Form.line self.now.line self.now.rest.now result }
    {
        let line = self.line;
        if self.rest.is_empty() {
            return None;
        }
        let Some(end) = self.rest.iter().position(|b| *b == b'\n') else {
            return Some((
                Item {
                    line,
                    content: None,
                },
                &[],
            ));
        };
        let content = F::read(&self.rest[..end]);
        Some((Item { line, content }, &self.rest[end + 1..]))
    }
}

impl<'a, F: Form> Reader for LineReader<'a, F> {
    ghost use Rattle.command.specs.Lines.{remaining};

    ghost left = { λ r. remaining F.Form.line r.line r.rest.now };

    fn next(&mut self) -> Option<Item> {
        let line = self.line;
        let (item, rest) = self.first_item()?;
        self.rest = rest;
        self.line = line + 1;
        Some(item)
    }
}
