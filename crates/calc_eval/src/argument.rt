// Arguments of calls, and what functions read of them in a view.
ghost use Rattle.std.specs.Prelude.{◌≡◌, ◌∷◌, [], IfOk, if◌then◌else◌};
ghost use Rattle.cell_value.specs.declared.argument.Arg.TheVariants.{One};
ghost use Rattle.formula_tree.specs.Reference.{sheet_of};
ghost use Rattle.calc_terms.specs.Meaning.{value_named};
ghost use Rattle.calc_terms.specs.References as references;
ghost use Rattle.calc_terms.specs.References.{argument_cells, argument_value, data_arguments, reference_cells};
ghost use Rattle.calc_terms.specs.Words.{takes_block};
ghost use Rattle.calc_eval.specs.internal.Steps.{term_at};

use crate::view::View;
use calc_terms::{Argument, DataFn, Reference};
use cell_value::{Area, Arg, FaultKind, Scalar};
use formula_tree::{Home, Node};
use std::alloc::{AllocError, Global};

// The value of the named expression that the word finds on the sheet; `#NAME?` where it finds none.
pub(crate) fn named_value<V: View>(
    alloc: Global,
    view: &V,
    word: &str,
    sheet: u32,
) -> Result<Scalar, AllocError>
    ensures { IfOk result (λ value. value ≡ value_named ((V.world view.now).named word.now sheet)) }
{
    match view.name(word, sheet) {
        Some(named) => named.value.copy(alloc),
        None => Ok(Scalar::Fault(FaultKind::Name)),
    }
}

// The reference that an argument of a formula at the home stands for: a name stands for the one that its own
// tree is.
pub(crate) fn reference_of<V: View>(view: &V, tree: &Node, home: Home) -> Option<Reference>
    ensures { result ≡ references.reference_of (V.world view.now) (sheet_of home) (term_at home tree.now) }
{
    match tree {
        Node::Name(word) => reference_named(view, word.as_str(), home.sheet()),
        _ => Reference::of(tree, home),
    }
}

// The reference that the tree of a named expression is itself.
fn reference_named<V: View>(view: &V, word: &str, sheet: u32) -> Option<Reference>
    ensures { result ≡ references.reference_named ((V.world view.now).named word.now sheet) }
{
    match view.name(word, sheet) {
        Some(named) => Reference::of(named.tree, named.home),
        None => None,
    }
}

// The argument where one value is wanted: a block is `Value`.
pub(crate) fn into_value<V: View>(
    alloc: Global,
    argument: Argument,
    view: &V,
) -> Result<Scalar, AllocError>
    ensures { IfOk result (λ value. value ≡ argument_value (V.world view.now) argument) }
{
    match argument {
        Argument::Reference(Reference::Cell(at)) => view.scalar(at).copy(alloc),
        Argument::Reference(Reference::Area(_)) => Ok(Scalar::Fault(FaultKind::Value)),
        Argument::Value(value) => Ok(value),
    }
}

// A copy of it.
pub(crate) fn value_of<V: View>(
    alloc: Global,
    argument: &Argument,
    view: &V,
) -> Result<Scalar, AllocError>
    ensures { IfOk result (λ value. value ≡ argument_value (V.world view.now) argument.now) }
{
    match argument {
        Argument::Reference(Reference::Cell(at)) => view.scalar(*at).copy(alloc),
        Argument::Reference(Reference::Area(_)) => Ok(Scalar::Fault(FaultKind::Value)),
        Argument::Value(value) => value.copy(alloc),
    }
}

// The arguments as the function takes them: which of them are lists or blocks is its choice.
pub(crate) fn data_arguments<V: View>(
    alloc: Global,
    f: DataFn,
    args: &[Argument],
    view: &V,
) -> Result<Vec<Arg>, AllocError>
    ensures { IfOk result (λ taken. taken.items ≡ data_arguments (V.world view.now) (takes_block f) 0 args.now) }
{
    let mut taken = Vec::new(alloc);
    'arguments: for (place, argument) in args.iter().enumerate() {
        let next = data_argument(alloc, f.takes_block(place), argument, view)?;
        taken.push(next)?;
    }
    Ok(taken)
}

// The argument as a list or a block, or as one value.
fn data_argument<V: View>(
    alloc: Global,
    takes_block: bool,
    argument: &Argument,
    view: &V,
) -> Result<Arg, AllocError>
    ensures { IfOk result (λ taken. taken ≡ (if takes_block then argument_cells (V.world view.now) argument.now else One (argument_value (V.world view.now) argument.now))) }
{
    match argument {
        Argument::Reference(reference) if takes_block => {
            let area = cells_of(alloc, *reference, view)?;
            Ok(Arg::Many(area))
        }
        _ => {
            let value = value_of(alloc, argument, view)?;
            Ok(Arg::One(value))
        }
    }
}

// The cells of a reference.
fn cells_of<V: View>(alloc: Global, reference: Reference, view: &V) -> Result<Area, AllocError>
    ensures { IfOk result (λ area. area ≡ reference_cells (V.world view.now) reference) }
{
    match reference {
        Reference::Cell(at) => one_cell(alloc, view.scalar(at)),
        Reference::Area(block) => view.area(alloc, block.block()),
    }
}

// The area of one cell.
fn one_cell(alloc: Global, value: &Scalar) -> Result<Area, AllocError>
    ensures { IfOk result (λ area. area ≡ record { rows = 1; cols = 1; values = value.now ∷ [] }) }
{
    let mut area = Area::new(alloc, 1, 1);
    area.push(0, 0, value.copy(alloc)?)?;
    Ok(area)
}
