// Terms of every class as records by shape: a head over the indices of earlier records.
// Indices and no boxes, since each term is kept once, in memory that the caller lends.
ghost use Rattle.std.specs.Prelude.{◌≡◌, ℕ, ◌+◌, ◌^◌, ◌<◌, ◌≤◌};
ghost use Rattle.logic.specs.Tree.{Tree, leaf, unary, binary, binds, assumes, under, applies, open_indices, open_hypotheses};
ghost use Rattle.terms.specs.declared.records.Record as records;
ghost use Rattle.terms.specs.Classes.{leaf_class, unary_class, binary_class, tree_class};
ghost use Rattle.terms.specs.Heads.{kind_head, leaf_head, unary_head, binary_head};
ghost use Rattle.terms.specs.Meaning.{largest, Measures};
ghost use Rattle.terms.specs.Nodes.{node, same_entry};
ghost use Rattle.terms.specs.NodesLemmas.{same_partial, same_equivalence};

// What a symbol yields.
#[derive(Clone, Copy, PartialEq, Eq)]
pub enum Kind {
    Thing,
    Number,
    Predicate,
}

#[derive(Clone, Copy, PartialEq, Eq)]
pub enum Connective {
    Implication,
    Conjunction,
    Disjunction,
}

// Plan heads over one plan and over two.
#[derive(Clone, Copy, PartialEq, Eq)]
pub enum OneSided {
    Skip,
    Skol(u32),
    Recnn,
}

#[derive(Clone, Copy, PartialEq, Eq)]
pub enum TwoSided {
    Recand,
    Recor,
    Recnor,
    Recnand,
}

// Proof heads over one proof and over two.
#[derive(Clone, Copy, PartialEq, Eq)]
pub enum OnePremise {
    Nnpp,
    Eqsymm,
    And1,
    And2,
    Orimp,
    Addneg,
    Intro,
    Elimnot,
}

#[derive(Clone, Copy, PartialEq, Eq)]
pub enum TwoPremises {
    Mp,
    Eqtrans,
    Negelim,
}

#[derive(Clone, Copy, PartialEq, Eq)]
pub enum Leaf {
    Var(u32),
    Nil,
    Lit(i64),
    False,
    Id,
    Hyp(u32),
    Known(u32),
}

// An application has its symbol's kind and number, over its list of arguments.
#[derive(Clone, Copy, PartialEq, Eq)]
pub enum Unary {
    Application(Kind, u32),
    Minus,
    Neg,
    Forall,
    Step(OneSided),
    Eqrefl,
    From(OnePremise),
}

#[derive(Clone, Copy, PartialEq, Eq)]
pub enum Binary {
    Cons,
    Add,
    Connect(Connective),
    Eq,
    Leq,
    Fork(TwoSided),
    Assume,
    Absurd,
    Eqsub,
    Inst,
    FromBoth(TwoPremises),
}

// What a term is; `Things` is a list of things.
#[derive(Clone, Copy, PartialEq, Eq, Debug)]
pub enum Class {
    Thing,
    Things,
    Number,
    Formula,
    Plan,
    Proof,
}

#[derive(Clone, Copy, PartialEq, Eq)]
pub enum Record {
    Leaf(Leaf),
    Unary(Unary, u32),
    Binary(Binary, u32, u32),
}

impl Leaf {
    pub(crate) fn class(self) -> Class
        ensures { result ≡ leaf_class (leaf_head self) }
    {
        match self {
            Leaf::Var(_) => Class::Thing,
            Leaf::Nil => Class::Things,
            Leaf::Lit(_) => Class::Number,
            Leaf::False => Class::Formula,
            Leaf::Id => Class::Plan,
            Leaf::Hyp(_) | Leaf::Known(_) => Class::Proof,
        }
    }
}

impl Unary {
    pub(crate) fn class(self) -> Class
        ensures { result ≡ unary_class (unary_head self) }
    {
        match self {
            Unary::Application(Kind::Thing, _) => Class::Thing,
            Unary::Application(Kind::Number, _) | Unary::Minus => Class::Number,
            Unary::Application(Kind::Predicate, _) | Unary::Neg | Unary::Forall => Class::Formula,
            Unary::Step(_) => Class::Plan,
            Unary::Eqrefl | Unary::From(_) => Class::Proof,
        }
    }
}

impl Binary {
    pub(crate) fn class(self) -> Class
        ensures { result ≡ binary_class (binary_head self) }
    {
        match self {
            Binary::Cons => Class::Things,
            Binary::Add => Class::Number,
            Binary::Connect(_) | Binary::Eq | Binary::Leq => Class::Formula,
            Binary::Fork(_) => Class::Plan,
            Binary::Assume | Binary::Absurd | Binary::Eqsub | Binary::Inst | Binary::FromBoth(_) =>
                Class::Proof,
        }
    }
}

impl Record {
    // The class of its term, by its head.
    pub fn class(self) -> Class
        ensures { (f : ℕ → Tree) → result ≡ tree_class (node f self) }
    {
        match self {
            Record::Leaf(head) => head.class(),
            Record::Unary(head, _) => head.class(),
            Record::Binary(head, _, _) => head.class(),
        }
    }
}

// A record with the measures of its term: its size written out, the bounds of its open indices and open hypotheses,
// and how deep `forall` and `assume` are nested.
#[derive(Clone, Copy)]
pub struct Entry {
    pub record: Record,
    pub size: u32,
    pub indices: u32,
    pub hypotheses: u32,
    pub foralls: u32,
    pub assumptions: u32,
}

// Entries are equal if their records are. By hand: a derive would skip five fields, and that its test is `same_entry` takes a lemma over all heads.
impl PartialEq for Entry {
    ghost eq = { same_entry };

    ghost laws = { same_partial };

    fn eq(&self, other: &Entry) -> bool {
        self.record == other.record
    }
}

impl Eq for Entry {
    ghost laws = { same_equivalence };
}

// What fills memory before it is lent: nothing depends on it.
pub const BLANK: Entry = Entry {
    record: Record::Leaf(Leaf::Nil),
    size: 1,
    indices: 0,
    hypotheses: 0,
    foralls: 0,
    assumptions: 0,
};

impl Unary {
    // Whether the head binds an index.
    pub(crate) fn binds(self) -> bool
        ensures { result ≡ binds (unary_head self) }
    {
        matches!(self, Unary::Forall)
    }

    // How many binders there are under the head, which stands under `depth`.
    pub fn under(self, depth: u32) -> u32
        requires { under (unary_head self) depth < 2 ^ 32 }
        ensures { result ≡ under (unary_head self) depth }
    {
        if self.binds() { depth + 1 } else { depth }
    }

    // Whether the head applies the symbol of the kind.
    pub(crate) fn applies(self, k: Kind, symbol: u32) -> bool
        ensures { result ≡ applies (kind_head k) symbol (unary_head self) }
    {
        matches!(self, Unary::Application(j, s) if j == k && s == symbol)
    }
}

impl Binary {
    // Whether the head makes a hypothesis.
    pub(crate) fn assumes(self) -> bool
        ensures { result ≡ assumes (binary_head self) }
    {
        matches!(self, Binary::Assume)
    }
}

pub(crate) fn of_leaf(head: Leaf) -> Entry
    requires indices { open_indices (leaf (leaf_head head)) < 2 ^ 32 }
    requires hypotheses { open_hypotheses (leaf (leaf_head head)) < 2 ^ 32 }
    ensures made { result.record ≡ records.Record.Leaf head }
    ensures measures { Measures (leaf (leaf_head head)) result }
{
    let (indices, hypotheses) = match head {
        Leaf::Var(i) => (i + 1, 0),
        Leaf::Hyp(i) => (0, i + 1),
        Leaf::Nil | Leaf::Lit(_) | Leaf::False | Leaf::Id | Leaf::Known(_) => (0, 0),
    };
    Entry {
        record: Record::Leaf(head),
        size: 1,
        indices,
        hypotheses,
        foralls: 0,
        assumptions: 0,
    }
}

pub(crate) fn of_unary(head: Unary, a: u32, operand: Entry) -> Entry
    requires size { operand.size ≤ largest }
    requires foralls { operand.foralls ≤ operand.size }
    ensures made { result.record ≡ records.Record.Unary head a }
    ensures measures { (t : Tree) → Measures t operand → Measures (unary (unary_head head) t) result }
{
    let bound = head.binds();
    Entry {
        record: Record::Unary(head, a),
        size: operand.size + 1,
        indices: if bound {
            operand.indices.saturating_sub(1)
        } else {
            operand.indices
        },
        hypotheses: operand.hypotheses,
        foralls: if bound {
            operand.foralls + 1
        } else {
            operand.foralls
        },
        assumptions: operand.assumptions,
    }
}

pub(crate) fn of_binary(head: Binary, a: u32, b: u32, left: Entry, right: Entry) -> Entry
    requires size { left.size + right.size ≤ largest }
    requires left { left.assumptions ≤ left.size }
    requires right { right.assumptions ≤ right.size }
    ensures made { result.record ≡ records.Record.Binary head a b }
    ensures measures { (t u : Tree) → Measures t left → Measures u right → Measures (binary (binary_head head) t u) result }
{
    let hypotheses = left.hypotheses.max(right.hypotheses);
    let assumptions = left.assumptions.max(right.assumptions);
    let assumed = head.assumes();
    Entry {
        record: Record::Binary(head, a, b),
        size: left.size + right.size + 1,
        indices: left.indices.max(right.indices),
        hypotheses: if assumed {
            hypotheses.saturating_sub(1)
        } else {
            hypotheses
        },
        foralls: left.foralls.max(right.foralls),
        assumptions: if assumed {
            assumptions + 1
        } else {
            assumptions
        },
    }
}
