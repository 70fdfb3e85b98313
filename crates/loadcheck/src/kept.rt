// Substitution run through the table: what it keeps, record by record.
use std::io;
use terms::Terms;
use terms::checked::{instance, make_each};
use terms::records::{BLANK, Binary, Kind, Leaf, Record, Unary};

// Over the indices, since they are printed.
fn print_kept(rt: &HostRuntime, terms: &Terms, from: u32) -> io::Result<()> {
    for i in from..terms.len() as u32 {
        let record = terms.record(i);
        println!(rt; "  {i}: {record}")?;
    }
    Ok(())
}

// Keeps the records, puts a thing for index 0 of a term, and prints what that adds to the table.
fn show_instance(
    rt: &HostRuntime,
    title: &str,
    records: &[Record],
    term: u32,
    thing: u32,
) -> io::Result<()> {
    let mut slots = [BLANK; 16];
    let mut terms = Terms::over(&mut slots);
    let made = make_each(&mut terms, records);
    let before = terms.len() as u32;
    match (made, instance(&mut terms, term, thing)) {
        (Ok(()), Ok(root)) => println!(rt;
            "{title}: {before} records before, the result at {root}, kept:"
        )?,
        _ => println!(rt; "{title}: not kept")?,
    }
    print_kept(rt, &terms, before)
}

// d for index 0 of forall q(v1, v0), and f(v0) for index 0 of forall q(v1, v0).
pub fn show_substitution(rt: &HostRuntime) -> io::Result<()> {
    let closed = [
        Record::Leaf(Leaf::Nil),
        Record::Unary(Unary::Application(Kind::Thing, 3), 0),
        Record::Leaf(Leaf::Var(0)),
        Record::Binary(Binary::Cons, 2, 0),
        Record::Leaf(Leaf::Var(1)),
        Record::Binary(Binary::Cons, 4, 3),
        Record::Unary(Unary::Application(Kind::Predicate, 5), 5),
        Record::Unary(Unary::Forall, 6),
    ];
    show_instance(rt, "d for v0 in forall(q(v1, v0))", &closed, 7, 1)?;
    let raised = [
        Record::Leaf(Leaf::Nil),
        Record::Leaf(Leaf::Var(0)),
        Record::Binary(Binary::Cons, 1, 0),
        Record::Unary(Unary::Application(Kind::Thing, 1), 2),
        Record::Leaf(Leaf::Var(1)),
        Record::Binary(Binary::Cons, 4, 2),
        Record::Unary(Unary::Application(Kind::Predicate, 5), 5),
        Record::Unary(Unary::Forall, 6),
    ];
    show_instance(rt, "f(v0) for v0 in forall(q(v1, v0))", &raised, 7, 3)
}
