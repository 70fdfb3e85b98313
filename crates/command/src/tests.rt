// Examples of lines and files.
use crate::command::{Command, Item};
use crate::form::{Form, Ledger, Text};
use crate::line_reader::LineReader;
use crate::reader::Reader;

const AND: Command = Command {
    code: 22,
    a: 3,
    b: 4,
    c: 0,
    literal: 0,
};

const NIL: Command = Command {
    code: 11,
    a: 0,
    b: 0,
    c: 0,
    literal: 0,
};

const LEAST: Command = Command {
    code: 14,
    a: 0,
    b: 0,
    c: 0,
    literal: -9_223_372_036_854_775_808,
};

#[test]
fn both_forms_are_read(rt: HostRuntime) {
    assert_eq!(rt; Text::read(b"and 3 4"), Some(AND));
    assert_eq!(rt; Ledger::read(b"  22       3       4       0"), Some(AND));
    assert_eq!(rt; Text::read(b"lit -9223372036854775808"), Some(LEAST));
    assert_eq!(rt; Ledger::read(b"  14    -9223372036854775808"), Some(LEAST));
}

#[test]
fn other_text_is_spoiled(rt: HostRuntime) {
    let lines: [&[u8]; 15] = [
        b"",
        b"and 3 4 ",
        b"and 3  4",
        b" and 3 4",
        b"and\t3 4",
        b"nil\r",
        b"lit -0",
        b"var 007",
        b"var 123456789",
        b"lit 9223372036854775808",
        b"And 3 4",
        b"and 3",
        b"and 3 4 5",
        b"var -1",
        b"lid 1",
    ];
    for line in lines {
        assert_eq!(rt; Text::read(line), None);
    }
}

#[test]
fn other_columns_are_spoiled(rt: HostRuntime) {
    let lines: [&[u8]; 6] = [
        b"  22       3       4       1",
        b"  22       3       4        ",
        b"22         3       4       0",
        b"  22      03       4       0",
        b"  29       3       4       0",
        b"  22       3       4      0",
    ];
    for line in lines {
        assert_eq!(rt; Ledger::read(line), None);
    }
}

#[test]
fn spoiled_lines_leave_the_others(rt: HostRuntime) {
    let mut reader: LineReader<Text> = LineReader::new(b"nil\n\nnil\nnil");
    assert_eq!(rt;
        reader.next(),
        Some(Item {
            line: 1,
            content: Some(NIL),
        })
    );
    assert_eq!(rt;
        reader.next(),
        Some(Item {
            line: 2,
            content: None,
        })
    );
    assert_eq!(rt;
        reader.next(),
        Some(Item {
            line: 3,
            content: Some(NIL),
        })
    );
    assert_eq!(rt;
        reader.next(),
        Some(Item {
            line: 4,
            content: None,
        })
    );
    assert_eq!(rt; reader.next(), None);
    assert_eq!(rt; reader.next(), None);
}
