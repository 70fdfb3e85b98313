// The symbols that a plan names, as entries of a table that keeps each once.
ghost use Rattle.std.specs.Prelude.{◌≡◌};
ghost use Rattle.table.specs.Contents.{kept, places};
ghost use Rattle.table.specs.Keeping.{answer, keep_in};
ghost use Rattle.terms.specs.Symbols.{same_symbol, newly};

use table::{Full, Place, Table};

#[derive(Clone, Copy, PartialEq, Eq)]
pub struct PlanSymbol {
    pub symbol: u32,
}

// Keeps a symbol; true where it was not kept yet.
pub fn note(symbols: &mut Table<PlanSymbol>, symbol: u32) -> Result<bool, Full>
    ensures answer { result ≡ newly (answer same_symbol (places symbols.old) (kept symbols.old) (record { symbol = symbol })) }
    ensures kept { kept symbols.new ≡ keep_in same_symbol (places symbols.old) (kept symbols.old) (record { symbol = symbol }) }
    ensures places { places symbols.new ≡ places symbols.old }
{
    let place = symbols.keep(PlanSymbol { symbol })?;
    Ok(matches!(place, Place::Added(_)))
}
