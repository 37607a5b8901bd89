// Trees read from texts, by operator precedence.
ghost use Rattle.std.specs.Prelude.{◌≡◌, ◌<◌, [], length, Some, None, IfOk, IfSome};
ghost use Rattle.std.specs.Option.{option_map};
ghost use Rattle.cell_addr.specs.Axis.{limit_of};
ghost use Rattle.cell_addr.specs.declared.place.TheConstants.{ROWS};
ghost use Rattle.cell_addr.specs.Sheets.{id_in};
ghost use Rattle.fix_num.specs.Text.{number_of};
ghost use Rattle.formula_tree.specs.Term.{name, binary, percent};
ghost use Rattle.formula_tree.specs.Token as tok;
ghost use Rattle.formula_tree.specs.Run.{end_of_run};
ghost use Rattle.formula_tree.specs.Whole.{whole_term};
ghost use Rattle.formula_tree.specs.Reference.{base_of, sheet_of, corner_at, IsHomeInside};
ghost use Rattle.formula_tree.specs.Grammar.{placed, cell_on, area_on, whole_on};
ghost use Rattle.formula_tree.specs.Reader.{after, end_front, number_then, reference, whole_range, range_or, sheet_range, on_sheet, signed, closed, call_front, arguments, and_then, first, climb, read, tree_of};
ghost use Rattle.formula_tree.specs.Relative.{relative};
ghost use Rattle.formula_tree.specs.StandsFor.{at_home};
ghost use Rattle.formula_tree.specs.declared.reference.Home.{Home};
ghost use Rattle.formula_parse.specs.internal.Front.{content_after, IsAddressInside, IsEndInside};
ghost use Rattle.formula_parse.specs.internal.Stream.{stream};
ghost use Rattle.formula_parse.specs.internal.Tree.{tree_at, text_then, sheet_then};

use crate::lexer::{after, first_corner, first_end, first_symbol, first_token};
use crate::run::end_of_run;
use crate::token::{Mark, Symbol, Token};
use cell_addr::{Axis, SheetNames, Text, Whole, capitals, quoted_text};
use cell_value::FaultKind;
use fix_num::Fixed;
use formula_tree::{
    Address, End, Home, MAX_LEVELS, Node, Op, PERCENT_LEVEL, Ref, SIGN_LEVEL, Sign, Tree, TreeList,
    depth,
};
use std::alloc::{AllocError, Global};
use std::rc::Rc;

// A tree that was read, and the text after it; `None` where none was.
type Read<'t> = Option<(Node, &'t str)>;

// What trees are read with: where their parts get memory, the home of the formula, and the sheets that it
// may name.
#[derive(Drop)]
struct Reader<'a, S: SheetNames> {
    alloc: Global,
    home: Home,
    sheets: &'a S,
    ghost inside: { IsHomeInside home },
}

#[tactic(auto, using(crate::proofs::ReaderRules::reader_rules))]
impl<'a, S: SheetNames> Reader<'a, S> {
    // A tree of a level of the grammar in front, of at most so many levels.
    #[cycle(tree)]
    fn tree<'t>(&self, levels: u32, level: u32, text: &'t str) -> Result<Read<'t>, AllocError>
        ensures { IfOk result (λ found. option_map (λ p. (tree_at self.now.home p.0, stream p.1.now)) found
            ≡ read (sheet_of self.now.home) (id_in (S.sheets self.now.sheets.now)) levels level (stream text.now)) }
    {
        if levels == 0 {
            return Ok(None);
        }
        let Some((left, rest)) = self.first(levels - 1, text)? else {
            return Ok(None);
        };
        let found = self.climb(levels - 1, levels, level, left, rest)?;
        Ok(found)
    }

    // A tree that no operator follows yet: an atom, or a sign and its operand.
    #[cycle(tree)]
    fn first<'t>(&self, levels: u32, text: &'t str) -> Result<Read<'t>, AllocError>
        ensures { IfOk result (λ found. option_map (λ p. (tree_at self.now.home p.0, stream p.1.now)) found
            ≡ first (sheet_of self.now.home) (id_in (S.sheets self.now.sheets.now)) (read (sheet_of self.now.home) (id_in (S.sheets self.now.sheets.now)) levels) (stream text.now)) }
    {
        let Some((token, rest)) = first_token(text) else {
            return Ok(None);
        };
        match token {
            Token::Number(digits) => Ok(self.number(digits, rest)),
            Token::Text(after_quote) => self.quoted(after_quote, rest),
            Token::Truth(truth) => Ok(Some((Node::Truth(truth), rest))),
            Token::Fault(fault) => Ok(Some((Node::Fault(fault), rest))),
            Token::Sheet(name) => Ok(self.on_sheet(self.sheets.id_of(name), rest)),
            Token::QuotedSheet(after_quote) => self.on_quoted_sheet(after_quote, rest),
            Token::Corner(address) => Ok(self.reference(Some(self.home.sheet()), address, rest)),
            Token::Name(word) => self.name(word, rest),
            Token::Other(run) => Ok(self.other(run, rest)),
            Token::Word(word) => {
                let found = self.call(levels, word, rest)?;
                Ok(found)
            }
            Token::Symbol(Symbol::Operator(op)) => {
                let found = self.signed(levels, op.sign(), rest)?;
                Ok(found)
            }
            Token::Symbol(Symbol::Mark(Mark::Open)) => {
                let found = self.paren(levels, rest)?;
                Ok(found)
            }
            Token::Symbol(_) | Token::Stray => Ok(None),
        }
    }

    // A sign's operand.
    #[cycle(tree)]
    fn signed<'t>(
        &self,
        levels: u32,
        sign: Option<Sign>,
        text: &'t str,
    ) -> Result<Read<'t>, AllocError>
        ensures { IfOk result (λ found. option_map (λ p. (tree_at self.now.home p.0, stream p.1.now)) found
            ≡ signed (read (sheet_of self.now.home) (id_in (S.sheets self.now.sheets.now)) levels) sign (stream text.now)) }
    {
        let Some(sign) = sign else {
            return Ok(None);
        };
        let Some((operand, rest)) = self.tree(levels, SIGN_LEVEL, text)? else {
            return Ok(None);
        };
        let operand = Rc::new(self.alloc, operand)?;
        Ok(Some((Node::Prefix(sign, operand), rest)))
    }

    // A tree and the closing parenthesis, after the opening one.
    #[cycle(tree)]
    fn paren<'t>(&self, levels: u32, text: &'t str) -> Result<Read<'t>, AllocError>
        ensures { IfOk result (λ found. option_map (λ p. (tree_at self.now.home p.0, stream p.1.now)) found
            ≡ and_then (read (sheet_of self.now.home) (id_in (S.sheets self.now.sheets.now)) levels 0 (stream text.now)) closed) }
    {
        let Some((inside, rest)) = self.tree(levels, 0, text)? else {
            return Ok(None);
        };
        let Some(rest) = after(Mark::Close, rest) else {
            return Ok(None);
        };
        let inside = Rc::new(self.alloc, inside)?;
        Ok(Some((Node::Paren(inside), rest)))
    }

    // A call after its word.
    #[cycle(tree)]
    fn call<'t>(&self, levels: u32, word: &str, text: &'t str) -> Result<Read<'t>, AllocError>
        ensures { IfOk result (λ found. option_map (λ p. (tree_at self.now.home p.0, stream p.1.now)) found
            ≡ call_front (read (sheet_of self.now.home) (id_in (S.sheets self.now.sheets.now)) levels) word.now (stream text.now)) }
    {
        let Some(inside) = after(Mark::Open, text) else {
            return Ok(None);
        };
        let Some(rest) = after(Mark::Close, inside) else {
            let found = self.arguments(levels, word, inside)?;
            return Ok(found);
        };
        let word = capitals(self.alloc, word)?;
        Ok(Some((Node::Call(word, TreeList::new(self.alloc)?), rest)))
    }

    // The arguments of a call, one at least, and the closing parenthesis.
    #[cycle(tree)]
    fn arguments<'t>(&self, levels: u32, word: &str, text: &'t str) -> Result<Read<'t>, AllocError>
        ensures { IfOk result (λ found. option_map (λ p. (tree_at self.now.home p.0, stream p.1.now)) found
            ≡ arguments (read (sheet_of self.now.home) (id_in (S.sheets self.now.sheets.now)) levels) word.now (length (stream text.now)) [] (stream text.now)) }
    {
        let mut list = TreeList::new(self.alloc)?;
        let mut next = text;
        'arguments: loop {
            let Some((argument, rest)) = self.tree(levels, 0, next)? else {
                return Ok(None);
            };
            list.push(Rc::new(self.alloc, argument)?)?;
            if let Some(more) = after(Mark::Comma, rest) {
                next = more;
                continue;
            }
            let Some(rest) = after(Mark::Close, rest) else {
                return Ok(None);
            };
            let word = capitals(self.alloc, word)?;
            return Ok(Some((Node::Call(word, list), rest)));
        }
    }

    // Operators of a level or higher after a tree, each of which takes the tree as its left operand; fewer
    // than so many operators.
    #[cycle(tree)]
    fn climb<'t>(
        &self,
        levels: u32,
        operators: u32,
        level: u32,
        first: Node,
        text: &'t str,
    ) -> Result<Read<'t>, AllocError>
        ensures { IfOk result (λ found. option_map (λ p. (tree_at self.now.home p.0, stream p.1.now)) found
            ≡ climb (read (sheet_of self.now.home) (id_in (S.sheets self.now.sheets.now)) levels) operators level (tree_at self.now.home first) (stream text.now)) }
    {
        let mut left = first;
        let mut rest = text;
        'operators: for _ in 0..operators {
            match first_symbol(rest) {
                Some((Symbol::Operator(op), after)) => {
                    if op.level() < level {
                        return Ok(Some((left, rest)));
                    }
                    let Some((right, after)) = self.tree(levels, op.level() + 1, after)? else {
                        return Ok(None);
                    };
                    left = binary(self.alloc, op, left, right)?;
                    rest = after;
                    continue;
                }
                Some((Symbol::Percent, after)) => {
                    if PERCENT_LEVEL < level {
                        return Ok(Some((left, rest)));
                    }
                    left = percent(self.alloc, left)?;
                    rest = after;
                    continue;
                }
                Some((Symbol::Mark(_), _)) | None => return Ok(Some((left, rest))),
            }
        }
        Ok(None)
    }
}

impl<'a, S: SheetNames> Reader<'a, S> {
    // A text between double quotes, by what follows the opening one.
    fn quoted<'t>(&self, after_quote: &str, rest: &'t str) -> Result<Read<'t>, AllocError>
        ensures { IfOk result (λ found. option_map (λ p. (tree_at self.now.home p.0, stream p.1.now)) found
            ≡ text_then (content_after 34 after_quote.now) (stream rest.now)) }
    {
        let Some(content) = quoted_text(self.alloc, after_quote, '"')? else {
            return Ok(None);
        };
        Ok(Some((Node::Text(content), rest)))
    }

    // A reference, a block or a whole range after a sheet's name between apostrophes, by what follows the
    // opening one.
    fn on_quoted_sheet<'t>(&self, after_quote: &str, rest: &'t str) -> Result<Read<'t>, AllocError>
        ensures { IfOk result (λ found. option_map (λ p. (tree_at self.now.home p.0, stream p.1.now)) found
            ≡ sheet_then (id_in (S.sheets self.now.sheets.now)) (content_after 39 after_quote.now) (stream rest.now)) }
    {
        let Some(name) = quoted_text(self.alloc, after_quote, '\'')? else {
            return Ok(None);
        };
        Ok(self.on_sheet(self.sheets.id_of(name.as_str()), rest))
    }

    // A reference, a block or a whole range after a sheet's name.
    fn on_sheet<'t>(&self, sheet: Option<u32>, text: &'t str) -> Read<'t>
        ensures { option_map (λ p. (tree_at self.now.home p.0, stream p.1.now)) result ≡ on_sheet sheet (stream text.now) }
    {
        match first_corner(text) {
            Some((address, rest)) => self.reference(sheet, address, rest),
            None => self.sheet_range(sheet, text),
        }
    }

    // A whole range after a sheet's name.
    fn sheet_range<'t>(&self, sheet: Option<u32>, text: &'t str) -> Read<'t>
        ensures { option_map (λ p. (tree_at self.now.home p.0, stream p.1.now)) result ≡ sheet_range sheet (end_front (stream text.now)) }
    {
        let (first, rest) = first_end(text)?;
        let rest = after(Mark::Colon, rest)?;
        self.whole_range(sheet, Some(first), rest)
    }

    // A number, or a whole range where a colon follows.
    fn number<'t>(&self, digits: &str, text: &'t str) -> Read<'t>
        ensures { option_map (λ p. (tree_at self.now.home p.0, stream p.1.now)) result
            ≡ range_or (number_then (number_of digits.now) (stream text.now)) (Some (sheet_of self.now.home)) (end_of_run ROWS digits.now) (after tok.Colon (stream text.now)) }
    {
        match after(Mark::Colon, text) {
            None => self.plain_number(digits, text),
            Some(rest) => {
                let first = end_of_run(digits.as_bytes());
                self.whole_range(Some(self.home.sheet()), first, rest)
            }
        }
    }

    // The number that the digits spell, where it is within the range.
    fn plain_number<'t>(&self, digits: &str, text: &'t str) -> Read<'t>
        ensures { option_map (λ p. (tree_at self.now.home p.0, stream p.1.now)) result ≡ number_then (number_of digits.now) (stream text.now) }
    {
        let number = Fixed::from_text(digits).ok()?;
        Some((Node::Number(number), text))
    }

    // A name, or a whole range where a colon follows.
    fn name<'t>(&self, word: &str, text: &'t str) -> Result<Read<'t>, AllocError>
        ensures { IfOk result (λ found. option_map (λ p. (tree_at self.now.home p.0, stream p.1.now)) found
            ≡ range_or (Some (name word.now, stream text.now)) (Some (sheet_of self.now.home)) (end_of_run ROWS word.now) (after tok.Colon (stream text.now))) }
    {
        match after(Mark::Colon, text) {
            None => Ok(Some((Node::Name(Text::from_str(self.alloc, word)?), text))),
            Some(rest) => {
                let first = end_of_run(word.as_bytes());
                Ok(self.whole_range(Some(self.home.sheet()), first, rest))
            }
        }
    }

    // A whole range where a colon follows a run that is nothing else.
    fn other<'t>(&self, run: &str, text: &'t str) -> Read<'t>
        ensures { option_map (λ p. (tree_at self.now.home p.0, stream p.1.now)) result
            ≡ range_or None (Some (sheet_of self.now.home)) (end_of_run ROWS run.now) (after tok.Colon (stream text.now)) }
    {
        let rest = after(Mark::Colon, text)?;
        self.whole_range(Some(self.home.sheet()), end_of_run(run.as_bytes()), rest)
    }

    // A whole range after its colon, by what is in front of that.
    fn whole_range<'t>(&self, sheet: Option<u32>, first: Option<End>, text: &'t str) -> Read<'t>
        requires { IfSome first IsEndInside }
        ensures { option_map (λ p. (tree_at self.now.home p.0, stream p.1.now)) result ≡ whole_range sheet first (stream text.now) }
    {
        let a = first?;
        let (b, rest) = first_end(text)?;
        if a.axis == b.axis {
            Some((self.whole_on(sheet, a, b), rest))
        } else {
            None
        }
    }

    // A reference, or a block where a colon follows.
    fn reference<'t>(&self, sheet: Option<u32>, a: Address, text: &'t str) -> Read<'t>
        requires { IsAddressInside a }
        ensures { option_map (λ p. (tree_at self.now.home p.0, stream p.1.now)) result ≡ reference sheet (a, stream text.now) }
    {
        match after(Mark::Colon, text) {
            None => Some((self.cell_on(sheet, a), text)),
            Some(rest) => {
                let (b, rest) = first_corner(rest)?;
                Some((self.area_on(sheet, a, b), rest))
            }
        }
    }

    // A reference to a cell on a sheet, or the fault `#REF!` where there is no such sheet.
    fn cell_on(&self, sheet: Option<u32>, a: Address) -> Node
        requires { IsAddressInside a }
        ensures { tree_at self.now.home result ≡ cell_on sheet a }
    {
        match sheet {
            Some(sheet) => Node::Cell(self.seen(sheet, a)),
            None => Node::Fault(FaultKind::Ref),
        }
    }

    // A block between two addresses on a sheet, its corners in order.
    fn area_on(&self, sheet: Option<u32>, a: Address, b: Address) -> Node
        requires first { IsAddressInside a }
        requires last { IsAddressInside b }
        ensures { tree_at self.now.home result ≡ area_on sheet a b }
    {
        match sheet {
            Some(sheet) => {
                let (first, last) = Address::in_order(a, b);
                Node::Area(self.seen(sheet, first), self.seen(sheet, last))
            }
            None => Node::Fault(FaultKind::Ref),
        }
    }

    // All rows or all columns between two ends on a sheet, the lower one first, or the fault `#REF!` where there
    // is no such sheet.
    fn whole_on(&self, sheet: Option<u32>, a: End, b: End) -> Node
        requires first { IsEndInside a }
        requires last { IsEndInside b }
        requires axes { a.axis ≡ b.axis }
        ensures { tree_at self.now.home result ≡ whole_on sheet a b }
    {
        match sheet {
            Some(sheet) => {
                if b.line < a.line {
                    self.whole(sheet, a.axis, b, a)
                } else {
                    self.whole(sheet, a.axis, a, b)
                }
            }
            None => Node::Fault(FaultKind::Ref),
        }
    }

    // All rows or all columns from one end to another on a sheet.
    fn whole(&self, sheet: u32, axis: Axis, first: End, last: End) -> Node
        requires first { first.line < limit_of axis }
        requires last { last.line < limit_of axis }
        ensures { tree_at self.now.home result ≡ whole_term (record { sheet = sheet; axis = axis; first = first.line; last = last.line }) first.fixed last.fixed }
    {
        let whole = Whole {
            sheet,
            axis,
            first: first.line,
            last: last.line,
        };
        Node::whole(whole, first.fixed, last.fixed, self.home)
    }

    // How the address on a sheet is seen from the home.
    fn seen(&self, sheet: u32, a: Address) -> Ref
        requires { IsAddressInside a }
        ensures { corner_at (base_of self.now.home) result ≡ placed sheet a }
    {
        Ref::of(a.on(sheet), self.home)
    }
}

// An operator between two trees.
fn binary(alloc: Global, op: Op, left: Node, right: Node) -> Result<Node, AllocError>
    ensures { IfOk result (λ tree. (home : Home) → tree_at home tree ≡ binary op (tree_at home left) (tree_at home right)) }
{
    let left = Rc::new(alloc, left)?;
    let right = Rc::new(alloc, right)?;
    Ok(Node::Binary(op, left, right))
}

// `%` after a tree.
fn percent(alloc: Global, part: Node) -> Result<Node, AllocError>
    ensures { IfOk result (λ tree. (home : Home) → tree_at home tree ≡ percent (tree_at home part)) }
{
    let part = Rc::new(alloc, part)?;
    Ok(Node::Percent(part))
}

// The tree that the text after `=` spells, for a formula at the home. `None` where it spells no tree of at
// most [`MAX_LEVELS`] levels.
pub(crate) fn tree_of<S: SheetNames>(
    alloc: Global,
    home: Home,
    sheets: &S,
    text: &str,
) -> Result<Option<Tree>, AllocError>
    requires { IsHomeInside home }
    ensures { IfOk result (λ found. option_map (λ tree. at_home home (relative tree.value)) found ≡ tree_of (sheet_of home) (id_in (S.sheets sheets.now)) (stream text.now)) }
{
    let reader = Reader {
        alloc,
        home,
        sheets,
    };
    let Some((tree, rest)) = reader.tree(MAX_LEVELS, 0, text)? else {
        return Ok(None);
    };
    if let Some((_, _)) = first_token(rest) {
        return Ok(None);
    }
    let tree = Rc::new(alloc, tree)?;
    if depth(&tree) > MAX_LEVELS {
        return Ok(None);
    }
    Ok(Some(tree))
}
