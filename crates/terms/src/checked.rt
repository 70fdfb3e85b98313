// Terms from records that come from outside: what the table asks of them is tested first.
ghost use Rattle.std.specs.Prelude.{◌≡◌, ◌<◌, take, Decides, IfOk};
ghost use Rattle.logic.specs.Tree.{leaf, put_tree};
ghost use Rattle.terms.specs.Heads.{leaf_head};
ghost use Rattle.terms.specs.Nodes.{node};
ghost use Rattle.terms.specs.Outcome.{count, entries, made_each, room, tree, trees, Tried};
ghost use Rattle.terms.specs.declared.checked.Unkept.TheVariants as unkept;

use crate::records::{Leaf, Record};
use crate::{DEEPEST, LARGEST, Terms};
use table::Full;

// Why a term is not kept: an operand that is not there, a size or an index over the limit, no record left.
#[derive(Clone, Copy, PartialEq, Eq, Debug)]
pub enum Unkept {
    Operand,
    Size,
    Full,
}

impl From<Full> for Unkept {
    ghost from_gives = { λ _ why. why ≡ unkept.Full };

    fn from(_: Full) -> Unkept {
        Unkept::Full
    }
}

fn is_kept(terms: &Terms, i: u32) -> bool
    ensures { Decides result (i < count terms.now) }
{
    (i as usize) < terms.len()
}

// Indices of `var` and `hyp` are below this. (The session's own limits are narrower.)
const MOST_INDICES: u32 = 64;

// Keeps a record, whose operands and size are tested first.
pub fn make(terms: &mut Terms, record: Record) -> Result<u32, Unkept>
    ensures { Tried terms.old terms.new (node (tree terms.old) «record») result }
{
    match record {
        Record::Leaf(head) => leaf(terms, head),
        Record::Unary(head, a) => {
            if !is_kept(terms, a) {
                return Err(Unkept::Operand);
            }
            if terms.size(a) >= LARGEST {
                return Err(Unkept::Size);
            }
            Ok(terms.unary(head, a)?)
        }
        Record::Binary(head, a, b) => {
            if !is_kept(terms, a) || !is_kept(terms, b) {
                return Err(Unkept::Operand);
            }
            if terms.size(a) + terms.size(b) >= LARGEST {
                return Err(Unkept::Size);
            }
            Ok(terms.binary(head, a, b)?)
        }
    }
}

fn leaf(terms: &mut Terms, head: Leaf) -> Result<u32, Unkept>
    ensures { Tried terms.old terms.new (leaf (leaf_head head)) result }
{
    match head {
        Leaf::Var(i) | Leaf::Hyp(i) if i >= MOST_INDICES => Err(Unkept::Size),
        _ => Ok(terms.leaf(head)?),
    }
}

// Keeps each of the records, in order, until one is refused.
pub fn make_each(terms: &mut Terms, records: &[Record]) -> Result<(), Unkept>
    ensures made { IfOk result (λ _. trees terms.new ≡ made_each (trees terms.old) records.now) }
    ensures front { take (count terms.old) (entries terms.new) ≡ entries terms.old }
    ensures room { room terms.new ≡ room terms.old }
{
    for record in records {
        let _ = make(terms, *record)?;
    }
    Ok(())
}

// Keeps φ[t], whose size is tested first.
pub fn instance(terms: &mut Terms, term: u32, thing: u32) -> Result<u32, Unkept>
    ensures { Tried terms.old terms.new (put_tree 0 (tree terms.old thing) (tree terms.old term)) result }
{
    if !is_kept(terms, term) || !is_kept(terms, thing) {
        return Err(Unkept::Operand);
    }
    if terms.foralls(thing) > 0
        || terms.indices(thing) > MOST_INDICES
        || terms.foralls(term) > DEEPEST
    {
        return Err(Unkept::Size);
    }
    if terms.size_after(term, 0, terms.size(thing)) > LARGEST {
        return Err(Unkept::Size);
    }
    Ok(terms.instance(term, thing)?)
}
