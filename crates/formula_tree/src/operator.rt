// The operators and signs of formulas: how strongly they bind, and how they are written.
ghost use Rattle.std.specs.Prelude.{◌≡◌};
ghost use Rattle.formula_tree.specs.Level.{level_of, op_of, sign_of};
ghost use Rattle.formula_tree.specs.Canonical.{op_text, sign_text};

/// The level of `%`: it binds more strongly than every operator between two operands. OpenFormula.
pub const PERCENT_LEVEL: u32 = 5;

/// The level of signs, which bind more strongly than `%`. OpenFormula.
pub const SIGN_LEVEL: u32 = 6;

/// The most levels that the tree of a formula has. This project's own limit.
pub const MAX_LEVELS: u32 = 64;
/// A sign in front of an operand.
#[derive(Clone, Copy, PartialEq, Eq, Debug)]
pub enum Sign {
    /// `+`
    Plus,
    /// `-`
    Minus,
}

/// An operator between two operands.
#[derive(Clone, Copy, PartialEq, Eq, Debug)]
pub enum Op {
    /// `+`
    Add,
    /// `-`
    Sub,
    /// `*`
    Mul,
    /// `/`
    Div,
    /// `^`
    Power,
    /// `&`
    Join,
    /// `=`
    Equal,
    /// `<>`
    Unequal,
    /// `<`
    Less,
    /// `>`
    Greater,
    /// `<=`
    AtMost,
    /// `>=`
    AtLeast,
}

impl Op {
    /// How strongly the operator binds: comparisons bind least, at level 0, and `^` most, at level 4.
    /// Operators of one level group to the left. OpenFormula.
    pub fn level(self) -> u32
        ensures { result ≡ level_of self }
    {
        match self {
            Op::Equal | Op::Unequal | Op::Less | Op::Greater | Op::AtMost | Op::AtLeast => 0,
            Op::Join => 1,
            Op::Add | Op::Sub => 2,
            Op::Mul | Op::Div => 3,
            Op::Power => 4,
        }
    }

    /// How the operator is written.
    pub fn text(self) -> &'static str
        ensures { result.now ≡ op_text self }
    {
        match self {
            Op::Add => "+",
            Op::Sub => "-",
            Op::Mul => "*",
            Op::Div => "/",
            Op::Power => "^",
            Op::Join => "&",
            Op::Equal => "=",
            Op::Unequal => "<>",
            Op::Less => "<",
            Op::Greater => ">",
            Op::AtMost => "<=",
            Op::AtLeast => ">=",
        }
    }

    /// The sign that is written like the operator, where there is one.
    pub fn sign(self) -> Option<Sign>
        ensures { result ≡ sign_of self }
    {
        match self {
            Op::Add => Some(Sign::Plus),
            Op::Sub => Some(Sign::Minus),
            Op::Mul | Op::Div | Op::Power | Op::Join => None,
            Op::Equal | Op::Unequal | Op::Less | Op::Greater | Op::AtMost | Op::AtLeast => None,
        }
    }
}

impl Sign {
    /// The operator that is written like the sign.
    pub fn op(self) -> Op
        ensures { result ≡ op_of self }
    {
        match self {
            Sign::Plus => Op::Add,
            Sign::Minus => Op::Sub,
        }
    }

    /// How the sign is written.
    pub fn text(self) -> &'static str
        ensures { result.now ≡ sign_text self }
    {
        self.op().text()
    }
}
