// Two kinds of entry, and tables of both in one struct.
ghost use Rattle.std.specs.Prelude.{◌≡◌};
ghost use Rattle.table.specs.Contents.{kept, places};
ghost use Rattle.table.specs.Keeping.{keep_in};
ghost use Rattle.table.specs.Sameness.{Apart};

use super::*;

#[derive(Clone, Copy, PartialEq, Eq, Debug)]
struct Symbol(u32);

#[derive(Clone, Copy, PartialEq, Eq, Debug)]
enum Shape {
    Leaf(u32),
    Pair(usize, usize),
}

#[test]
fn memory_that_holds_entries_is_empty_at_first(rt: HostRuntime) {
    let mut slots = [Symbol(9); 2];
    let mut table = Table::over(&mut slots);
    assert_eq!(rt; table.len(), 0);
    assert_eq!(rt; table.find(&Symbol(9)), None);
    assert_eq!(rt; table.get(0), None);
    assert_eq!(rt; table.keep(Symbol(9)), Ok(Place::Added(0)));
}

// A plain struct that has two tables.
#[derive(Drop)]
struct Terms<'a> {
    shapes: Table<'a, Shape>,
    symbols: Table<'a, Symbol>,
}

impl Terms<'_> {
    // Names a symbol and keeps its leaf.
    fn leaf(&mut self, symbol: Symbol) -> Result<usize, Full>
        ensures symbols { kept self.new.symbols ≡ keep_in ⟦<Symbol as PartialEq>⟧.eq (places self.old.symbols) (kept self.old.symbols) symbol }
        ensures apart { Apart ⟦<Symbol as PartialEq>⟧.eq (kept self.old.symbols) → Apart ⟦<Symbol as PartialEq>⟧.eq (kept self.new.symbols) }
        ensures places { places self.new.shapes ≡ places self.old.shapes }
    {
        let _ = self.symbols.keep(symbol)?;
        let place = self.shapes.keep(Shape::Leaf(symbol.0))?;
        Ok(place.index())
    }

    // A pair of two leaves, the operands first.
    fn pair(&mut self, left: Symbol, right: Symbol) -> Result<usize, Full> {
        let a = self.leaf(left)?;
        let b = self.leaf(right)?;
        Ok(self.shapes.keep(Shape::Pair(a, b))?.index())
    }
}

#[test]
fn exactly_enough_places(rt: HostRuntime) {
    let mut shapes = [Shape::Leaf(0); 3];
    let mut symbols = [Symbol(0); 2];
    let mut terms = Terms {
        shapes: Table::over(&mut shapes),
        symbols: Table::over(&mut symbols),
    };
    assert_eq!(rt; terms.pair(Symbol(5), Symbol(7)), Ok(2));
    assert_eq!(rt; terms.pair(Symbol(5), Symbol(7)), Ok(2));
    assert_eq!(rt; terms.shapes.get(2), Some(Shape::Pair(0, 1)));
    assert_eq!(rt; terms.shapes.keep(Shape::Leaf(7)), Ok(Place::Found(1)));
    assert_eq!(rt; terms.symbols.find(&Symbol(7)), Some(1));
    assert_eq!(rt; terms.shapes.len(), terms.shapes.room());
}

#[test]
fn one_place_too_few(rt: HostRuntime) {
    let mut shapes = [Shape::Leaf(0); 2];
    let mut symbols = [Symbol(0); 2];
    let mut terms = Terms {
        shapes: Table::over(&mut shapes),
        symbols: Table::over(&mut symbols),
    };
    assert_eq!(rt; terms.pair(Symbol(5), Symbol(7)), Err(Full));
    assert_eq!(rt; terms.shapes.len(), 2);
    assert_eq!(rt; terms.shapes.get(1), Some(Shape::Leaf(7)));
    terms.shapes.truncate(1);
    assert_eq!(rt; terms.shapes.len(), 1);
    assert_eq!(rt; terms.shapes.find(&Shape::Leaf(7)), None);
    assert_eq!(rt; terms.shapes.keep(Shape::Pair(0, 0)), Ok(Place::Added(1)));
}
