// How far the tokens of a formula are read: what was read last, and what may come next.
ghost use Rattle.std.specs.Prelude.{◌≡◌, false, None, if◌then◌else◌};
ghost use Rattle.std.specs.Option.{option_map};
ghost use Rattle.formula_tree.specs.Level.{percent_level};
ghost use Rattle.formula_parse.specs.internal.Front.{token_of};
ghost use Rattle.formula_parse.specs.declared.progress.Kind.TheVariants as kinds;
ghost use Rattle.formula_parse.specs.internal.Progress.{frames_of, line_of, kind_of, within, opened, signed, begun, atom, no_arguments, at_operand, at_call, at_sheet, is_last, at_last, joined, settled, operator, percent, comma, closed, at_tree, at_first, advanced, is_outermost, is_whole};

use crate::frames::{Frame, Frames};
use crate::run::end_of_run;
use crate::token::{Mark, Symbol, Token};
use cell_addr::{Axis, after_quoted};
use fix_num::Fixed;
use formula_tree::{MAX_LEVELS, Op, PERCENT_LEVEL, Sign};

/// What a token may be.
#[derive(Clone, Copy)]
pub(crate) enum Kind {
    /// A leaf where it is one alone, and an end of a whole range along an axis where it is one; no production
    /// takes what is neither.
    Atom(bool, Option<Axis>),
    /// An address.
    Corner,
    /// A sheet's name.
    Sheet,
    /// A function's word.
    Word,
    /// An operator, `%` or a mark.
    Symbol(Symbol),
}

/// What ends a range.
#[derive(Clone, Copy)]
pub(crate) enum Last {
    /// An address ends a block.
    Corner,
    /// An end along the same axis ends a whole range.
    Line(Axis),
}

/// What was read last.
#[derive(Clone, Copy)]
pub(crate) enum Stage {
    /// A tree may begin.
    Operand,
    /// The word of a function, which `(` follows.
    Call,
    /// A sheet's name, which a reference follows.
    Sheet,
    /// What may begin a range, which a colon follows; or it is a leaf alone, where it may be one.
    First(bool, Last),
    /// The colon of a range.
    Last(Last),
    /// A tree that reaches so deep.
    Tree(u32),
}

impl Kind {
    // What the token may be.
    pub(crate) fn of(token: Token<'_>) -> Kind
        ensures { result ≡ kind_of (token_of token.entry) }
    {
        match token {
            Token::Number(digits) => Kind::Atom(Fixed::from_text(digits).is_ok(), line_of(digits)),
            Token::Text(after_quote) => Kind::Atom(after_quoted(after_quote, '"').is_some(), None),
            Token::Truth(_) | Token::Fault(_) => Kind::Atom(true, None),
            Token::Sheet(_) => Kind::Sheet,
            Token::QuotedSheet(after_quote) => sheet(after_quoted(after_quote, '\'').is_some()),
            Token::Stray => Kind::Atom(false, None),
            Token::Corner(_) => Kind::Corner,
            Token::Name(word) => Kind::Atom(true, line_of(word)),
            Token::Word(_) => Kind::Word,
            Token::Other(run) => Kind::Atom(false, line_of(run)),
            Token::Symbol(symbol) => Kind::Symbol(symbol),
        }
    }
}

// A sheet's name where it is closed, and else what no production takes.
fn sheet(is_closed: bool) -> Kind
    ensures { result ≡ if is_closed then kinds.Sheet else kinds.Atom false None }
{
    if is_closed {
        Kind::Sheet
    } else {
        Kind::Atom(false, None)
    }
}

// The axis of the end of a whole range that a run is.
fn line_of(run: &str) -> Option<Axis>
    ensures { result ≡ line_of run.now }
{
    end_of_run(run.as_bytes()).map(|end| end.axis)
}

impl Frames {
    // What was read last after one more token; `None` where no formula goes on with it.
    pub(crate) fn advance(&mut self, stage: Stage, kind: Kind) -> Option<Stage>
        ensures { option_map (λ s. (s, frames_of self.new)) result ≡ advanced stage (frames_of self.old) kind }
    {
        match stage {
            Stage::Operand => self.operand(kind),
            Stage::Call => self.call(kind),
            Stage::Sheet => behind_sheet(kind),
            Stage::First(alone, last) => self.first(alone, last, kind),
            Stage::Last(last) => self.last(last, kind),
            Stage::Tree(deepest) => self.tree(deepest, kind),
        }
    }

    // Where a tree may begin.
    fn operand(&mut self, kind: Kind) -> Option<Stage>
        ensures { option_map (λ s. (s, frames_of self.new)) result ≡ at_operand (frames_of self.old) kind }
    {
        match kind {
            Kind::Atom(alone, line) => self.begin(atom(self.count() + 1, alone, line)),
            Kind::Corner => self.begin(Some(Stage::First(true, Last::Corner))),
            Kind::Sheet => self.begin(Some(Stage::Sheet)),
            Kind::Word => self.begin(Some(Stage::Call)),
            Kind::Symbol(Symbol::Operator(op)) => self.sign(op.sign()),
            Kind::Symbol(Symbol::Mark(Mark::Open)) => self.open(Frame::Parens),
            Kind::Symbol(Symbol::Mark(Mark::Close)) => self.no_arguments(),
            Kind::Symbol(_) => None,
        }
    }

    // A leaf or a call begins, where a level is left.
    fn begin(&self, stage: Option<Stage>) -> Option<Stage>
        ensures { option_map (λ s. (s, frames_of self.now)) result ≡ begun stage (frames_of self.now) }
    {
        if self.count() < MAX_LEVELS {
            stage
        } else {
            None
        }
    }

    // A sign in front of an operand.
    fn sign(&mut self, sign: Option<Sign>) -> Option<Stage>
        ensures { option_map (λ s. (s, frames_of self.new)) result ≡ signed sign (frames_of self.old) }
    {
        match sign {
            Some(_) => self.open(Frame::Sign),
            None => None,
        }
    }

    // A frame where two levels or more are left: one for it, and one for what stands in it.
    fn open(&mut self, frame: Frame) -> Option<Stage>
        ensures { option_map (λ s. (s, frames_of self.new)) result ≡ opened frame (frames_of self.old) }
    {
        if self.count() + 1 < MAX_LEVELS {
            self.enter(frame)
        } else {
            None
        }
    }

    // A frame more, in which a tree may begin.
    fn enter(&mut self, frame: Frame) -> Option<Stage>
        ensures { option_map (λ s. (s, frames_of self.new)) result ≡ within frame (frames_of self.old) }
    {
        self.push(frame)?;
        Some(Stage::Operand)
    }

    // The closing parenthesis of a call without arguments.
    fn no_arguments(&mut self) -> Option<Stage>
        ensures { option_map (λ s. (s, frames_of self.new)) result ≡ no_arguments (frames_of self.old) }
    {
        match self.top() {
            Some(Frame::Arguments(deepest)) if deepest == 0 => {
                self.pop();
                Some(Stage::Tree(self.count() + 1))
            }
            _ => None,
        }
    }

    // Behind the word of a function.
    fn call(&mut self, kind: Kind) -> Option<Stage>
        ensures { option_map (λ s. (s, frames_of self.new)) result ≡ at_call (frames_of self.old) kind }
    {
        match kind {
            Kind::Symbol(Symbol::Mark(Mark::Open)) => self.enter(Frame::Arguments(0)),
            _ => None,
        }
    }

    // Behind what may be the first end of a range.
    fn first(&mut self, alone: bool, last: Last, kind: Kind) -> Option<Stage>
        ensures { option_map (λ s. (s, frames_of self.new)) result ≡ at_first alone last (frames_of self.old) kind }
    {
        match kind {
            Kind::Symbol(Symbol::Mark(Mark::Colon)) => Some(Stage::Last(last)),
            _ if alone => self.tree(self.count() + 1, kind),
            _ => None,
        }
    }

    // Behind the colon of a range.
    fn last(&self, last: Last, kind: Kind) -> Option<Stage>
        ensures { option_map (λ s. (s, frames_of self.now)) result ≡ at_last last (frames_of self.now) kind }
    {
        if is_last(last, kind) {
            Some(Stage::Tree(self.count() + 1))
        } else {
            None
        }
    }

    // Behind a tree.
    fn tree(&mut self, deepest: u32, kind: Kind) -> Option<Stage>
        ensures { option_map (λ s. (s, frames_of self.new)) result ≡ at_tree deepest (frames_of self.old) kind }
    {
        match kind {
            Kind::Symbol(Symbol::Operator(op)) => self.operator(op.level(), deepest),
            Kind::Symbol(Symbol::Percent) => self.percent(deepest),
            Kind::Symbol(Symbol::Mark(Mark::Comma)) => self.comma(deepest),
            Kind::Symbol(Symbol::Mark(Mark::Close)) => self.close(deepest),
            _ => None,
        }
    }

    // An operator: its left operand has a level more above it.
    fn operator(&mut self, level: u32, deepest: u32) -> Option<Stage>
        ensures { option_map (λ s. (s, frames_of self.new)) result ≡ operator level (settled level deepest (frames_of self.old)) }
    {
        let deepest = self.settle(level, deepest);
        if deepest < MAX_LEVELS {
            self.enter(Frame::Right(level, deepest + 1))
        } else {
            None
        }
    }

    // `%` behind a tree, which has a level more above it.
    fn percent(&mut self, deepest: u32) -> Option<Stage>
        ensures { option_map (λ s. (s, frames_of self.new)) result ≡ percent (settled percent_level deepest (frames_of self.old)) }
    {
        let deepest = self.settle(PERCENT_LEVEL, deepest);
        if deepest < MAX_LEVELS {
            Some(Stage::Tree(deepest + 1))
        } else {
            None
        }
    }

    // A comma behind an argument.
    fn comma(&mut self, deepest: u32) -> Option<Stage>
        ensures { option_map (λ s. (s, frames_of self.new)) result ≡ comma (settled 0 deepest (frames_of self.old)) }
    {
        let deepest = self.settle(0, deepest);
        match self.top() {
            Some(Frame::Arguments(before)) => {
                self.pop();
                self.enter(Frame::Arguments(deepest.max(before)))
            }
            _ => None,
        }
    }

    // A closing parenthesis behind a tree.
    fn close(&mut self, deepest: u32) -> Option<Stage>
        ensures { option_map (λ s. (s, frames_of self.new)) result ≡ closed (settled 0 deepest (frames_of self.old)) }
    {
        let deepest = self.settle(0, deepest);
        match self.top() {
            Some(Frame::Parens) => {
                self.pop();
                Some(Stage::Tree(deepest))
            }
            Some(Frame::Arguments(before)) => {
                self.pop();
                Some(Stage::Tree(deepest.max(before)))
            }
            _ => None,
        }
    }

    // The frames end that end before an operator of the level; how deep the tree in the others reaches.
    fn settle(&mut self, level: u32, deepest: u32) -> u32
        ensures { (result, frames_of self.new) ≡ settled level deepest (frames_of self.old) }
    {
        let mut reach = deepest;
        'frames: while let Some(frame) = self.top() {
            let Some(more) = joined(level, reach, frame) else {
                return reach;
            };
            reach = more;
            self.pop();
        }
        reach
    }

    // Whether the tokens so far are a whole formula.
    pub(crate) fn ends(&mut self, stage: Stage) -> bool
        ensures { result ≡ is_whole stage (frames_of self.old) }
    {
        match stage {
            Stage::First(alone, _) => alone && self.is_outermost(self.count() + 1),
            Stage::Tree(deepest) => self.is_outermost(deepest),
            _ => false,
        }
    }

    // Whether a tree is the whole formula where that ends behind it.
    fn is_outermost(&mut self, deepest: u32) -> bool
        ensures { result ≡ is_outermost (settled 0 deepest (frames_of self.old)).1 }
    {
        self.settle(0, deepest);
        self.top().is_none()
    }
}

// A number, a name, another leaf, or the first end of a whole range.
fn atom(deepest: u32, alone: bool, line: Option<Axis>) -> Option<Stage>
    ensures { result ≡ atom deepest alone line }
{
    match line {
        Some(axis) => Some(Stage::First(alone, Last::Line(axis))),
        None if alone => Some(Stage::Tree(deepest)),
        None => None,
    }
}

// Behind a sheet's name.
fn behind_sheet(kind: Kind) -> Option<Stage>
    ensures { result ≡ at_sheet kind }
{
    match kind {
        Kind::Corner => Some(Stage::First(true, Last::Corner)),
        Kind::Atom(_, Some(axis)) => Some(Stage::First(false, Last::Line(axis))),
        _ => None,
    }
}

// Whether the token ends the range.
fn is_last(last: Last, kind: Kind) -> bool
    ensures { result ≡ is_last last kind }
{
    match (last, kind) {
        (Last::Corner, Kind::Corner) => true,
        (Last::Line(axis), Kind::Atom(_, Some(other))) => axis == other,
        _ => false,
    }
}

// How deep a tree reaches together with what it ends a part of, where the frame ends before an operator of the
// level.
fn joined(level: u32, deepest: u32, frame: Frame) -> Option<u32>
    ensures { result ≡ joined level deepest frame }
{
    match frame {
        Frame::Right(own, left) if level <= own => Some(deepest.max(left)),
        Frame::Sign => Some(deepest),
        _ => None,
    }
}
