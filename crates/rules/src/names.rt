// What the commands of a session gave names to: its symbols, and their results in order.
ghost use Rattle.std.specs.Prelude.{◌≡◌};
ghost use Rattle.table.specs.Logged.{logged};
ghost use Rattle.rules.specs.Names.{fact_at, arity_at};

use table::log::Log;
use terms::records::Kind;

// A symbol, by what it yields and how many things it takes.
#[derive(Clone, Copy)]
pub struct Symbol {
    pub kind: Kind,
    pub arity: u32,
}

// The result of an accepted command: a symbol by its place among the symbols, a term or a formula made known by its index, or nothing.
#[derive(Clone, Copy)]
pub enum Named {
    Symbol(u32),
    Term(u32),
    Fact(u32),
    Nothing,
}

// The index of the formula that command k made known, if it did; commands are numbered from 1.
pub fn known(results: &Log<Named>, k: u32) -> Option<u32>
    ensures { result ≡ fact_at (logged results.now) k }
{
    match results.get(k.checked_sub(1)? as usize) {
        Some(Named::Fact(i)) => Some(i),
        _ => None,
    }
}

// How many things a thing symbol takes; none if it is no thing symbol.
pub fn thing_arity(symbols: &Log<Symbol>, s: u32) -> Option<u32>
    ensures { result ≡ arity_at (logged symbols.now) s }
{
    match symbols.get(s as usize) {
        Some(symbol) if symbol.kind == Kind::Thing => Some(symbol.arity),
        _ => None,
    }
}
