// How heads and records are written: `lit 5`, `app thing 1 of 2`, `cons of 1 and 2`.
// The words stand here and in `command`, whose heads are of commands and not of terms: neither crate knows the other.
ghost use Rattle.std.specs.Prelude.{Some};
ghost use Rattle.terms.specs.Words.{kind_word, connective_word, one_sided_words, two_sided_word, one_premise_word, two_premises_word, leaf_words, unary_words, binary_word, record_words};

use crate::records::{
    Binary, Connective, Kind, Leaf, OnePremise, OneSided, Record, TwoPremises, TwoSided, Unary,
};
use std::fmt;

impl fmt::Display for Kind {
    ghost output = { λ h. Some (kind_word h) };

    fn fmt<W: fmt::Write>(&self, f: &mut fmt::Formatter<W>) -> fmt::Result {
        f.write_str(match self {
            Kind::Thing => "thing",
            Kind::Number => "number",
            Kind::Predicate => "pred",
        })
    }
}

impl fmt::Display for Connective {
    ghost output = { λ h. Some (connective_word h) };

    fn fmt<W: fmt::Write>(&self, f: &mut fmt::Formatter<W>) -> fmt::Result {
        f.write_str(match self {
            Connective::Implication => "implies",
            Connective::Conjunction => "and",
            Connective::Disjunction => "or",
        })
    }
}

impl fmt::Display for OneSided {
    ghost output = { λ h. Some (one_sided_words h) };

    fn fmt<W: fmt::Write>(&self, f: &mut fmt::Formatter<W>) -> fmt::Result {
        match *self {
            OneSided::Skip => f.write_str("skip"),
            OneSided::Skol(s) => write!(f, "skol {s}"),
            OneSided::Recnn => f.write_str("recnn"),
        }
    }
}

impl fmt::Display for TwoSided {
    ghost output = { λ h. Some (two_sided_word h) };

    fn fmt<W: fmt::Write>(&self, f: &mut fmt::Formatter<W>) -> fmt::Result {
        f.write_str(match self {
            TwoSided::Recand => "recand",
            TwoSided::Recor => "recor",
            TwoSided::Recnor => "recnor",
            TwoSided::Recnand => "recnand",
        })
    }
}

impl fmt::Display for OnePremise {
    ghost output = { λ h. Some (one_premise_word h) };

    fn fmt<W: fmt::Write>(&self, f: &mut fmt::Formatter<W>) -> fmt::Result {
        f.write_str(match self {
            OnePremise::Nnpp => "nnpp",
            OnePremise::Eqsymm => "eqsymm",
            OnePremise::And1 => "and1",
            OnePremise::And2 => "and2",
            OnePremise::Orimp => "orimp",
            OnePremise::Addneg => "addneg",
            OnePremise::Intro => "intro",
            OnePremise::Elimnot => "elimnot",
        })
    }
}

impl fmt::Display for TwoPremises {
    ghost output = { λ h. Some (two_premises_word h) };

    fn fmt<W: fmt::Write>(&self, f: &mut fmt::Formatter<W>) -> fmt::Result {
        f.write_str(match self {
            TwoPremises::Mp => "mp",
            TwoPremises::Eqtrans => "eqtrans",
            TwoPremises::Negelim => "negelim",
        })
    }
}

impl fmt::Display for Leaf {
    ghost output = { λ h. Some (leaf_words h) };

    fn fmt<W: fmt::Write>(&self, f: &mut fmt::Formatter<W>) -> fmt::Result {
        match *self {
            Leaf::Var(i) => write!(f, "var {i}"),
            Leaf::Nil => f.write_str("nil"),
            Leaf::Lit(n) => write!(f, "lit {n}"),
            Leaf::False => f.write_str("false"),
            Leaf::Id => f.write_str("id"),
            Leaf::Hyp(i) => write!(f, "hyp {i}"),
            Leaf::Known(k) => write!(f, "known {k}"),
        }
    }
}

impl fmt::Display for Unary {
    ghost output = { λ h. Some (unary_words h) };

    fn fmt<W: fmt::Write>(&self, f: &mut fmt::Formatter<W>) -> fmt::Result {
        match *self {
            Unary::Application(kind, s) => write!(f, "app {kind} {s}"),
            Unary::Minus => f.write_str("minus"),
            Unary::Neg => f.write_str("neg"),
            Unary::Forall => f.write_str("forall"),
            Unary::Step(head) => write!(f, "{head}"),
            Unary::Eqrefl => f.write_str("eqrefl"),
            Unary::From(rule) => write!(f, "{rule}"),
        }
    }
}

impl fmt::Display for Binary {
    ghost output = { λ h. Some (binary_word h) };

    fn fmt<W: fmt::Write>(&self, f: &mut fmt::Formatter<W>) -> fmt::Result {
        match *self {
            Binary::Cons => f.write_str("cons"),
            Binary::Add => f.write_str("add"),
            Binary::Connect(c) => write!(f, "{c}"),
            Binary::Eq => f.write_str("eq"),
            Binary::Leq => f.write_str("leq"),
            Binary::Fork(head) => write!(f, "{head}"),
            Binary::Assume => f.write_str("assume"),
            Binary::Absurd => f.write_str("absurd"),
            Binary::Eqsub => f.write_str("eqsub"),
            Binary::Inst => f.write_str("inst"),
            Binary::FromBoth(rule) => write!(f, "{rule}"),
        }
    }
}

impl fmt::Display for Record {
    ghost output = { λ h. Some (record_words h) };

    fn fmt<W: fmt::Write>(&self, f: &mut fmt::Formatter<W>) -> fmt::Result {
        match *self {
            Record::Leaf(head) => write!(f, "{head}"),
            Record::Unary(head, a) => write!(f, "{head} of {a}"),
            Record::Binary(head, a, b) => write!(f, "{head} of {a} and {b}"),
        }
    }
}
