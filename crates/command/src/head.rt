// The heads of commands: each has a code, a word and its operands.
ghost use Rattle.std.specs.Prelude.{◌≡◌};
ghost use Rattle.std.specs.Result.{result_ok, IfErr};
ghost use Rattle.command.specs.Heads.{code, word, operands, used_by, coded, worded, heads, spelled_among, Named};

// What a head is followed by: so many numbers, or one literal.
#[derive(Clone, Copy)]
pub enum Operands {
    None,
    One,
    Two,
    Three,
    Literal,
}

// Which of a command's operands are used.
#[derive(Clone, Copy)]
pub struct Uses {
    pub a: bool,
    pub b: bool,
    pub c: bool,
    pub literal: bool,
}

impl Operands {
    pub fn uses(self) -> Uses
        ensures { result ≡ used_by self }
    {
        Uses {
            a: matches!(self, Operands::One | Operands::Two | Operands::Three),
            b: matches!(self, Operands::Two | Operands::Three),
            c: matches!(self, Operands::Three),
            literal: matches!(self, Operands::Literal),
        }
    }
}

// The number of a head is its code.
#[derive(Clone, Copy)]
pub enum Head {
    Thing = 1,
    Number = 2,
    Pred = 3,
    Var = 10,
    Nil = 11,
    Cons = 12,
    App = 13,
    Lit = 14,
    Add = 15,
    Minus = 16,
    False = 20,
    Implies = 21,
    And = 22,
    Or = 23,
    Neg = 24,
    Eq = 25,
    Leq = 26,
    Forall = 27,
    Id = 30,
    Skip = 31,
    Skol = 32,
    Recand = 33,
    Recor = 34,
    Recnor = 35,
    Recnand = 36,
    Recnn = 37,
    Hyp = 40,
    Known = 41,
    Assume = 42,
    Mp = 43,
    Absurd = 44,
    Nnpp = 45,
    Eqrefl = 46,
    Eqtrans = 47,
    Eqsymm = 48,
    Eqsub = 49,
    And1 = 50,
    And2 = 51,
    Orimp = 52,
    Negelim = 53,
    Addneg = 54,
    Intro = 55,
    Elimnot = 56,
    Inst = 57,
    Sum = 60,
    Atmost = 61,
    Cancel = 62,
    Swap = 63,
    Eqleq = 64,
    Leqtrans = 65,
    Pair = 66,
    Query = 70,
    Initial = 71,
    Let = 72,
    Same = 73,
    Shows = 74,
    Final = 75,
}

// Every head, by code.
const HEADS: [Head; 57] = [
    Head::Thing,
    Head::Number,
    Head::Pred,
    Head::Var,
    Head::Nil,
    Head::Cons,
    Head::App,
    Head::Lit,
    Head::Add,
    Head::Minus,
    Head::False,
    Head::Implies,
    Head::And,
    Head::Or,
    Head::Neg,
    Head::Eq,
    Head::Leq,
    Head::Forall,
    Head::Id,
    Head::Skip,
    Head::Skol,
    Head::Recand,
    Head::Recor,
    Head::Recnor,
    Head::Recnand,
    Head::Recnn,
    Head::Hyp,
    Head::Known,
    Head::Assume,
    Head::Mp,
    Head::Absurd,
    Head::Nnpp,
    Head::Eqrefl,
    Head::Eqtrans,
    Head::Eqsymm,
    Head::Eqsub,
    Head::And1,
    Head::And2,
    Head::Orimp,
    Head::Negelim,
    Head::Addneg,
    Head::Intro,
    Head::Elimnot,
    Head::Inst,
    Head::Sum,
    Head::Atmost,
    Head::Cancel,
    Head::Swap,
    Head::Eqleq,
    Head::Leqtrans,
    Head::Pair,
    Head::Query,
    Head::Initial,
    Head::Let,
    Head::Same,
    Head::Shows,
    Head::Final,
];

impl Head {
    pub fn code(self) -> u32
        ensures { result ≡ code self }
    {
        u32::from(self)
    }

    pub fn from_code(number: u32) -> Option<Head>
        ensures value { result ≡ coded number }
        ensures names { Named code number result }
    {
        Head::try_from(number).ok()
    }

    pub fn word(self) -> &'static [u8]
        ensures { result.now ≡ word self }
    {
        match self {
            Head::Thing => b"thing",
            Head::Number => b"number",
            Head::Pred => b"pred",
            Head::Var => b"var",
            Head::Nil => b"nil",
            Head::Cons => b"cons",
            Head::App => b"app",
            Head::Lit => b"lit",
            Head::Add => b"add",
            Head::Minus => b"minus",
            Head::False => b"false",
            Head::Implies => b"implies",
            Head::And => b"and",
            Head::Or => b"or",
            Head::Neg => b"neg",
            Head::Eq => b"eq",
            Head::Leq => b"leq",
            Head::Forall => b"forall",
            Head::Id => b"id",
            Head::Skip => b"skip",
            Head::Skol => b"skol",
            Head::Recand => b"recand",
            Head::Recor => b"recor",
            Head::Recnor => b"recnor",
            Head::Recnand => b"recnand",
            Head::Recnn => b"recnn",
            Head::Hyp => b"hyp",
            Head::Known => b"known",
            Head::Assume => b"assume",
            Head::Mp => b"mp",
            Head::Absurd => b"absurd",
            Head::Nnpp => b"nnpp",
            Head::Eqrefl => b"eqrefl",
            Head::Eqtrans => b"eqtrans",
            Head::Eqsymm => b"eqsymm",
            Head::Eqsub => b"eqsub",
            Head::And1 => b"and1",
            Head::And2 => b"and2",
            Head::Orimp => b"orimp",
            Head::Negelim => b"negelim",
            Head::Addneg => b"addneg",
            Head::Intro => b"intro",
            Head::Elimnot => b"elimnot",
            Head::Inst => b"inst",
            Head::Sum => b"sum",
            Head::Atmost => b"atmost",
            Head::Cancel => b"cancel",
            Head::Swap => b"swap",
            Head::Eqleq => b"eqleq",
            Head::Leqtrans => b"leqtrans",
            Head::Pair => b"pair",
            Head::Query => b"query",
            Head::Initial => b"initial",
            Head::Let => b"let",
            Head::Same => b"same",
            Head::Shows => b"shows",
            Head::Final => b"final",
        }
    }

    pub fn from_word(spelling: &[u8]) -> Option<Head>
        ensures value { result ≡ worded spelling.now }
        ensures names { Named word spelling.now result }
    {
        spelled_among(&HEADS, spelling)
    }

    pub fn operands(self) -> Operands
        ensures { result ≡ operands self }
    {
        match self {
            Head::Nil | Head::False | Head::Id => Operands::None,
            Head::Thing
            | Head::Number
            | Head::Pred
            | Head::Var
            | Head::Minus
            | Head::Neg
            | Head::Forall
            | Head::Skip
            | Head::Recnn
            | Head::Hyp
            | Head::Known
            | Head::Nnpp
            | Head::Eqrefl
            | Head::Eqsymm
            | Head::And1
            | Head::And2
            | Head::Orimp
            | Head::Addneg
            | Head::Intro
            | Head::Elimnot
            | Head::Cancel
            | Head::Query
            | Head::Initial
            | Head::Let
            | Head::Final => Operands::One,
            Head::Cons
            | Head::App
            | Head::Add
            | Head::Implies
            | Head::And
            | Head::Or
            | Head::Eq
            | Head::Leq
            | Head::Skol
            | Head::Recand
            | Head::Recor
            | Head::Recnor
            | Head::Recnand
            | Head::Assume
            | Head::Mp
            | Head::Absurd
            | Head::Eqtrans
            | Head::Eqsub
            | Head::Negelim
            | Head::Inst
            | Head::Sum
            | Head::Atmost
            | Head::Swap
            | Head::Eqleq
            | Head::Pair
            | Head::Same
            | Head::Shows => Operands::Two,
            Head::Leqtrans => Operands::Three,
            Head::Lit => Operands::Literal,
        }
    }
}

impl From<Head> for u32 {
    ghost from_gives = { λ head result. result ≡ code head };

    fn from(head: Head) -> u32 {
        head as u32
    }
}

// A number that is no head's code.
#[derive(Clone, Copy, PartialEq, Eq, Debug)]
pub struct UnknownCode(pub u32);

impl TryFrom<u32> for Head {
    type Error = UnknownCode;

    ghost try_from_gives = { λ number result. (result_ok result ≡ coded number) × IfErr result (λ e. e.0 ≡ number) };

    // A `match`: the language has no conversion from a number to a variant.
    fn try_from(number: u32) -> Result<Head, UnknownCode> {
        match number {
            1 => Ok(Head::Thing),
            2 => Ok(Head::Number),
            3 => Ok(Head::Pred),
            10 => Ok(Head::Var),
            11 => Ok(Head::Nil),
            12 => Ok(Head::Cons),
            13 => Ok(Head::App),
            14 => Ok(Head::Lit),
            15 => Ok(Head::Add),
            16 => Ok(Head::Minus),
            20 => Ok(Head::False),
            21 => Ok(Head::Implies),
            22 => Ok(Head::And),
            23 => Ok(Head::Or),
            24 => Ok(Head::Neg),
            25 => Ok(Head::Eq),
            26 => Ok(Head::Leq),
            27 => Ok(Head::Forall),
            30 => Ok(Head::Id),
            31 => Ok(Head::Skip),
            32 => Ok(Head::Skol),
            33 => Ok(Head::Recand),
            34 => Ok(Head::Recor),
            35 => Ok(Head::Recnor),
            36 => Ok(Head::Recnand),
            37 => Ok(Head::Recnn),
            40 => Ok(Head::Hyp),
            41 => Ok(Head::Known),
            42 => Ok(Head::Assume),
            43 => Ok(Head::Mp),
            44 => Ok(Head::Absurd),
            45 => Ok(Head::Nnpp),
            46 => Ok(Head::Eqrefl),
            47 => Ok(Head::Eqtrans),
            48 => Ok(Head::Eqsymm),
            49 => Ok(Head::Eqsub),
            50 => Ok(Head::And1),
            51 => Ok(Head::And2),
            52 => Ok(Head::Orimp),
            53 => Ok(Head::Negelim),
            54 => Ok(Head::Addneg),
            55 => Ok(Head::Intro),
            56 => Ok(Head::Elimnot),
            57 => Ok(Head::Inst),
            60 => Ok(Head::Sum),
            61 => Ok(Head::Atmost),
            62 => Ok(Head::Cancel),
            63 => Ok(Head::Swap),
            64 => Ok(Head::Eqleq),
            65 => Ok(Head::Leqtrans),
            66 => Ok(Head::Pair),
            70 => Ok(Head::Query),
            71 => Ok(Head::Initial),
            72 => Ok(Head::Let),
            73 => Ok(Head::Same),
            74 => Ok(Head::Shows),
            75 => Ok(Head::Final),
            _ => Err(UnknownCode(number)),
        }
    }
}

// The first of the heads that has this word.
fn spelled_among(heads: &[Head], spelling: &[u8]) -> Option<Head>
    ensures { result ≡ spelled_among spelling.now heads.now }
{
    heads.iter().copied().find(|head| head.word() == spelling)
}
