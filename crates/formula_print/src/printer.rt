// Writes trees.
ghost use Rattle.std.specs.Prelude.{◌≡◌, ◌++◌, [], ◌∷◌, if◌then◌else◌, IfOk, OnOk, string_bytes};
ghost use Rattle.cell_addr.specs.Place.{IsInside};
ghost use Rattle.cell_addr.specs.Sheets.{name_in};
ghost use Rattle.formula_tree.specs.Canonical.{front_text, printed, printed_all, formula_text};
ghost use Rattle.formula_tree.specs.Reference.{base_of, sheet_of, corner_at};
ghost use Rattle.formula_tree.specs.Relative.{relative, relative_list};
ghost use Rattle.formula_tree.specs.StandsFor.{ArePlacesInside, at_home};
ghost use Rattle.formula_tree.specs.Term.{cell, whole, each_corner_all, EachCornerOfAll};
ghost use Rattle.formula_tree.specs.Whole.{first_ref, last_ref};
ghost use Rattle.formula_print.specs.internal.Appends.{AppendsText};

use crate::pieces::{push_corner, push_line, push_quoted, push_sheet, truth_text};
use cell_addr::{Axis, SheetNames, Text};
use formula_tree::{Home, Node, Part, Ref, SheetPart, Tree, TreeList};
use std::alloc::{AllocError, Global};

/// The canonical text of the tree of a formula at the home, where the list of sheets gives their names.
/// Each place that the tree names at the home lies within the limits of a sheet. A reference to another
/// sheet that has no name is written without one. The time is that of the text and of asking the list for
/// each name. Source: this project's own.
pub fn print<S: SheetNames>(
    alloc: Global,
    tree: &Tree,
    home: Home,
    sheets: &S,
) -> Result<Text, AllocError>
    requires { ArePlacesInside (at_home home (relative tree.now.value)) }
    ensures { IfOk result (λ text. text ≡ formula_text (sheet_of home) (name_in (S.sheets sheets.now)) (at_home home (relative tree.now.value))) }
{
    let printer = Printer {
        alloc,
        home,
        sheets,
    };
    let mut out = String::from_str(alloc, "=")?;
    printer.push_tree(&mut out, tree)?;
    Ok(Text::new(out))
}

// What trees are printed with: where pieces get memory, the home of the formula, and the names of sheets.
#[derive(Drop)]
struct Printer<'a, S: SheetNames> {
    alloc: Global,
    home: Home,
    sheets: &'a S,
}

impl<'a, S: SheetNames> Printer<'a, S> {
    // Writes a tree.
    #[cycle(tree)]
    fn push_tree(&self, out: &mut String, tree: &Node) -> Result<(), AllocError>
        requires { ArePlacesInside (at_home self.now.home (relative tree.now)) }
        ensures { OnOk result (AppendsText (string_bytes out.old) (string_bytes out.new)
            (printed (sheet_of self.now.home) (name_in (S.sheets self.now.sheets.now)) (at_home self.now.home (relative tree.now)))) }
    {
        match tree {
            Node::Number(number) => out.push_str(&number.text(self.alloc)?)?,
            Node::Text(text) => push_quoted(out, '"', text.as_str())?,
            Node::Truth(truth) => out.push_str(truth_text(*truth))?,
            Node::Fault(fault) => out.push_str(fault.text())?,
            Node::Cell(reference) => self.push_cell(out, *reference)?,
            Node::Area(first, last) => {
                self.push_cell(out, *first)?;
                out.push(':')?;
                push_corner(self.alloc, out, last.at(self.home))?;
            }
            Node::WholeRows(sheet, first, last) => {
                self.push_whole(out, Axis::Rows, *sheet, *first, *last)?
            }
            Node::WholeCols(sheet, first, last) => {
                self.push_whole(out, Axis::Cols, *sheet, *first, *last)?
            }
            Node::Name(name) => out.push_str(name.as_str())?,
            Node::Prefix(sign, part) => {
                out.push_str(sign.text())?;
                self.push_tree(out, part)?;
            }
            Node::Percent(part) => {
                self.push_tree(out, part)?;
                out.push('%')?;
            }
            Node::Binary(op, left, right) => {
                self.push_tree(out, left)?;
                out.push_str(op.text())?;
                self.push_tree(out, right)?;
            }
            Node::Call(word, list) => {
                out.push_str(word.as_str())?;
                out.push('(')?;
                self.push_arguments(out, list)?;
            }
            Node::Paren(part) => {
                out.push('(')?;
                self.push_tree(out, part)?;
                out.push(')')?;
            }
        }
        Ok(())
    }

    // Writes arguments with commas between them, and the closing parenthesis.
    #[cycle(tree)]
    fn push_arguments(&self, out: &mut String, list: &TreeList) -> Result<(), AllocError>
        requires { EachCornerOfAll (λ c. IsInside c.at) (each_corner_all (corner_at (base_of self.now.home)) (relative_list list.now)) }
        ensures { OnOk result (AppendsText (string_bytes out.old) (string_bytes out.new)
            (printed_all (sheet_of self.now.home) (name_in (S.sheets self.now.sheets.now)) (each_corner_all (corner_at (base_of self.now.home)) (relative_list list.now)))) }
    {
        let mut is_first = true;
        'arguments: for argument in list.items() {
            push_comma(out, is_first)?;
            self.push_tree(out, argument)?;
            is_first = false;
        }
        out.push(')')?;
        Ok(())
    }

    // Writes a corner, with its sheet's name in front where the sheet isn't the home's.
    fn push_cell(&self, out: &mut String, reference: Ref) -> Result<(), AllocError>
        requires { IsInside (corner_at (base_of self.now.home) reference).at }
        ensures { OnOk result (AppendsText (string_bytes out.old) (string_bytes out.new)
            (printed (sheet_of self.now.home) (name_in (S.sheets self.now.sheets.now)) (cell (corner_at (base_of self.now.home) reference)))) }
    {
        let corner = reference.at(self.home);
        self.push_front(out, corner.at.sheet)?;
        push_corner(self.alloc, out, corner)?;
        Ok(())
    }

    // Writes a whole range by its two ends, with its sheet's name in front where the sheet isn't the home's.
    fn push_whole(
        &self,
        out: &mut String,
        axis: Axis,
        sheet: SheetPart,
        first: Part,
        last: Part,
    ) -> Result<(), AllocError>
        requires first { IsInside (corner_at (base_of self.now.home) (first_ref axis sheet first)).at }
        requires last { IsInside (corner_at (base_of self.now.home) (last_ref axis sheet last)).at }
        ensures { OnOk result (AppendsText (string_bytes out.old) (string_bytes out.new)
            (printed (sheet_of self.now.home) (name_in (S.sheets self.now.sheets.now)) (whole axis (corner_at (base_of self.now.home) (first_ref axis sheet first)) (corner_at (base_of self.now.home) (last_ref axis sheet last))))) }
    {
        let first = Ref::first_of(axis, sheet, first).at(self.home);
        let last = Ref::last_of(axis, sheet, last).at(self.home);
        self.push_front(out, first.at.sheet)?;
        push_line(self.alloc, out, axis, first)?;
        out.push(':')?;
        push_line(self.alloc, out, axis, last)?;
        Ok(())
    }

    // Writes the sheet's name in front of a reference, where the sheet isn't the home's.
    fn push_front(&self, out: &mut String, sheet: u32) -> Result<(), AllocError>
        ensures { OnOk result (AppendsText (string_bytes out.old) (string_bytes out.new)
            (front_text (sheet_of self.now.home) (name_in (S.sheets self.now.sheets.now)) sheet)) }
    {
        if sheet == self.home.sheet() {
            return Ok(());
        }
        if let Some(name) = self.sheets.name_of(sheet) {
            push_sheet(out, name)?;
        }
        Ok(())
    }
}

// Writes a comma in front of an argument that isn't the first.
fn push_comma(out: &mut String, is_first: bool) -> Result<(), AllocError>
    ensures { OnOk result (string_bytes out.new ≡ string_bytes out.old ++ (if is_first then [] else 44 ∷ [])) }
{
    if !is_first {
        out.push(',')?;
    }
    Ok(())
}
