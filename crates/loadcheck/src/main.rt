// Says what query.txt and proof.txt of the working folder hold, and shows the rules at work on examples.
#![tactic(auto)]

mod kept;

use command::form::{Form, Ledger, Text};
use command::line_reader::LineReader;
use command::survey::Survey;
use std::{fs, io};

// A file with more bytes is one spoiled line.
const MOST_BYTES: usize = 32_768;

fn survey<F: Form>(bytes: &[u8]) -> Survey {
    Survey::of(LineReader::<F>::within(MOST_BYTES, bytes))
}

// A file that can't be read is empty.
fn report(rt: &HostRuntime, name: &str) -> io::Result<()> {
    let content = fs::read(rt, name).unwrap_or_else(|_| Vec::new(rt.alloc()));
    let text = survey::<Text>(&content);
    let ledger = survey::<Ledger>(&content);
    println!(rt; "{name} as text: {text}")?;
    println!(rt; "{name} as a ledger: {ledger}")
}

fn main(rt: HostRuntime) -> io::Result<()> {
    report(&rt, "query.txt")?;
    report(&rt, "proof.txt")?;
    rt.print(logic::worked_examples())?;
    kept::show_substitution(&rt)
}
