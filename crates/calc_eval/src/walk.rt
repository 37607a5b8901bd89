// The meaning of trees, by a walk over the shared tree.
ghost use Rattle.std.specs.Prelude.{◌≡◌, ◌+◌, ◌<◌, ◌≤◌, IfOk, false, map, None, slice_get, true};
ghost use Rattle.custom_fn.specs.Registry.{custom_named};
ghost use Rattle.formula_tree.specs.Links.{is_place_word};
ghost use Rattle.formula_tree.specs.Reference.{base_of, sheet_of};
ghost use Rattle.formula_tree.specs.Relative.{relative};
ghost use Rattle.formula_tree.specs.StandsFor.{at_home};
ghost use Rattle.calc_terms.specs.Calls.{call_value, custom_call};
ghost use Rattle.calc_terms.specs.Choices.{choice_value};
ghost use Rattle.calc_terms.specs.Cost.{asked_cost, cost, cost_all};
ghost use Rattle.calc_terms.specs.Meaning.{evaluated, meaning};
ghost use Rattle.calc_terms.specs.References.{argument_of, argument_size, argument_value};
ghost use Rattle.calc_terms.specs.References as references;
ghost use Rattle.calc_terms.specs.Words.{function_named};
ghost use Rattle.calc_eval.specs.internal.Steps.{cost_at, sizes, term_at, terms_at};

use crate::argument::{into_value, named_value, reference_of};
use crate::call::{custom_value, data_value, place_value};
use crate::customs::Customs;
use crate::view::View;
use calc_terms::{Argument, Choice, ChoiceFn, Function};
use cell_value::{FaultKind, Scalar};
use formula_tree::{Home, Node, Tree, TreeList};
use operators::{combined, percent, signed};
use std::alloc::{AllocError, Global};
use std::sync::ledger::Ledger;
use steps::Steps;

/// What the tree means in a formula at the home, over what the view shows and with these custom functions. The
/// view stays as it is.
///
/// It takes at most one step for each node of the tree, beside those of the summaries that the view makes of
/// blocks, and at least one.
pub fn eval<V: View, C: Customs, L: Ledger>(
    alloc: Global,
    tree: &Tree,
    home: Home,
    view: &mut V,
    customs: &C,
    steps: &mut Steps<L>,
) -> Result<Scalar, AllocError>
    ensures means { IfOk result (λ value. value ≡ meaning (V.world view.old) (C.customs customs.now) home (at_home home (relative tree.now.value))) }
    ensures leaves { V.world view.new ≡ V.world view.old }
    ensures least { steps.old < steps.new }
    ensures most { steps.new ≤ steps.old + cost (V.world view.old) (sheet_of home) (at_home home (relative tree.now.value)) }
{
    value(alloc, tree, home, view, customs, steps)
}

// What a tree means.
#[cycle(value)]
fn value<V: View, C: Customs, L: Ledger>(
    alloc: Global,
    tree: &Node,
    home: Home,
    view: &mut V,
    customs: &C,
    steps: &mut Steps<L>,
) -> Result<Scalar, AllocError>
    ensures means { IfOk result (λ value. value ≡ meaning (V.world view.old) (C.customs customs.now) home (term_at home tree.now)) }
    ensures leaves { V.world view.new ≡ V.world view.old }
    ensures least { steps.old < steps.new }
    ensures most { steps.new ≤ steps.old + cost (V.world view.old) (sheet_of home) (term_at home tree.now) }
{
    steps.tick();
    match tree {
        Node::Number(number) => Ok(Scalar::Number(*number)),
        Node::Text(text) => Ok(Scalar::Text(text.copy(alloc)?)),
        Node::Truth(truth) => Ok(Scalar::Truth(*truth)),
        Node::Fault(fault) => Ok(Scalar::Fault(*fault)),
        Node::Cell(corner) => view.scalar(corner.at(home).at).copy(alloc),
        Node::Area(_, _) => Ok(Scalar::Fault(FaultKind::Value)),
        Node::WholeRows(_, _, _) | Node::WholeCols(_, _, _) => Ok(Scalar::Fault(FaultKind::Value)),
        Node::Name(word) => named_value(alloc, view, word.as_str(), home.sheet()),
        Node::Prefix(sign, part) => {
            let operand = value(alloc, part, home, view, customs, steps)?;
            Ok(signed(*sign, operand))
        }
        Node::Percent(part) => {
            let operand = value(alloc, part, home, view, customs, steps)?;
            Ok(percent(&operand))
        }
        Node::Binary(op, left, right) => {
            let left = value(alloc, left, home, view, customs, steps)?;
            let right = value(alloc, right, home, view, customs, steps)?;
            combined(alloc, *op, &left, &right)
        }
        Node::Call(word, list) => call(alloc, word.as_str(), list, home, view, customs, steps),
        Node::Paren(part) => value(alloc, part, home, view, customs, steps),
    }
}

// What a call means.
#[cycle(value)]
fn call<V: View, C: Customs, L: Ledger>(
    alloc: Global,
    word: &str,
    list: &TreeList,
    home: Home,
    view: &mut V,
    customs: &C,
    steps: &mut Steps<L>,
) -> Result<Scalar, AllocError>
    ensures means { IfOk result (λ value. value ≡ call_value (V.world view.old) (base_of home) (function_named word.now) (custom_named word.now (C.customs customs.now)) (evaluated (V.world view.old) (C.customs customs.now) home (terms_at home list.now))) }
    ensures leaves { V.world view.new ≡ V.world view.old }
    ensures least { steps.old ≤ steps.new }
    ensures most { steps.new ≤ steps.old + cost_all (V.world view.old) (sheet_of home) (is_place_word word.now) (terms_at home list.now) }
{
    match Function::named(word) {
        Some(Function::Choice(f)) => choice(alloc, f, list, home, view, customs, steps),
        Some(Function::Place(f)) => {
            let args = arguments(alloc, list, home, view, customs, steps)?;
            Ok(place_value(f, home, &args))
        }
        Some(Function::Data(f)) => {
            let args = arguments(alloc, list, home, view, customs, steps)?;
            data_value(alloc, f, &args, view, steps)
        }
        None => custom_call(alloc, word, list, home, view, customs, steps),
    }
}

// What a call of a custom function means; a word that names none is `#NAME?`.
#[cycle(value)]
fn custom_call<V: View, C: Customs, L: Ledger>(
    alloc: Global,
    word: &str,
    list: &TreeList,
    home: Home,
    view: &mut V,
    customs: &C,
    steps: &mut Steps<L>,
) -> Result<Scalar, AllocError>
    ensures means { IfOk result (λ value. value ≡ custom_call (V.world view.old) (custom_named word.now (C.customs customs.now)) (evaluated (V.world view.old) (C.customs customs.now) home (terms_at home list.now))) }
    ensures leaves { V.world view.new ≡ V.world view.old }
    ensures least { steps.old ≤ steps.new }
    ensures most { steps.new ≤ steps.old + cost_all (V.world view.old) (sheet_of home) false (terms_at home list.now) }
{
    if !customs.has(word) {
        return Ok(Scalar::Fault(FaultKind::Name));
    }
    let args = arguments(alloc, list, home, view, customs, steps)?;
    custom_value(alloc, word, customs, &args, view)
}

// What a function that chooses makes of its arguments, of which only the chosen one is worked out.
#[cycle(value)]
fn choice<V: View, C: Customs, L: Ledger>(
    alloc: Global,
    f: ChoiceFn,
    list: &TreeList,
    home: Home,
    view: &mut V,
    customs: &C,
    steps: &mut Steps<L>,
) -> Result<Scalar, AllocError>
    ensures means { IfOk result (λ value. value ≡ choice_value f (map (argument_value (V.world view.old)) (evaluated (V.world view.old) (C.customs customs.now) home (terms_at home list.now)))) }
    ensures leaves { V.world view.new ≡ V.world view.old }
    ensures least { steps.old ≤ steps.new }
    ensures most { steps.new ≤ steps.old + cost_all (V.world view.old) (sheet_of home) false (terms_at home list.now) }
{
    let Some(first) = argument_at(alloc, list, 0, home, view, customs, steps)? else {
        return Ok(Scalar::Fault(FaultKind::Na));
    };
    let first = into_value(alloc, first, view)?;
    match f.choose(first, list.items().len()) {
        Choice::Value(value) => Ok(value),
        Choice::At(place) => {
            match argument_at(alloc, list, place, home, view, customs, steps)? {
                Some(chosen) => into_value(alloc, chosen, view),
                None => Ok(Scalar::Fault(FaultKind::Value)),
            }
        }
    }
}

// The argument at this place, from 0, where there is one.
#[cycle(value)]
fn argument_at<V: View, C: Customs, L: Ledger>(
    alloc: Global,
    list: &TreeList,
    place: usize,
    home: Home,
    view: &mut V,
    customs: &C,
    steps: &mut Steps<L>,
) -> Result<Option<Argument>, AllocError>
    ensures means { IfOk result (λ found. found ≡ slice_get (evaluated (V.world view.old) (C.customs customs.now) home (terms_at home list.now)) place) }
    ensures leaves { V.world view.new ≡ V.world view.old }
    ensures least { steps.old ≤ steps.new }
    ensures most { steps.new ≤ steps.old + cost_at (V.world view.old) (sheet_of home) (terms_at home list.now) place }
{
    match list.items().get(place) {
        Some(tree) => Ok(Some(argument(alloc, tree, home, view, customs, steps)?)),
        None => Ok(None),
    }
}

// All arguments of a call, in order.
#[cycle(value)]
fn arguments<V: View, C: Customs, L: Ledger>(
    alloc: Global,
    list: &TreeList,
    home: Home,
    view: &mut V,
    customs: &C,
    steps: &mut Steps<L>,
) -> Result<Vec<Argument>, AllocError>
    ensures means { IfOk result (λ args. args.items ≡ evaluated (V.world view.old) (C.customs customs.now) home (terms_at home list.now)) }
    ensures leaves { V.world view.new ≡ V.world view.old }
    ensures least { steps.old ≤ steps.new }
    ensures most { steps.new ≤ steps.old + cost_all (V.world view.old) (sheet_of home) false (terms_at home list.now) }
    ensures asked { steps.new ≤ steps.old + cost_all (V.world view.old) (sheet_of home) true (terms_at home list.now) }
    ensures room { IfOk result (λ args. steps.new + sizes (V.world view.old) args.items ≤ steps.old + cost_all (V.world view.old) (sheet_of home) false (terms_at home list.now)) }
{
    let mut args = Vec::new(alloc);
    'trees: for tree in list.items() {
        args.push(argument(alloc, tree, home, view, customs, steps)?)?;
    }
    Ok(args)
}

// An argument of a call: the reference that it stands for, or else its value.
#[cycle(value)]
fn argument<V: View, C: Customs, L: Ledger>(
    alloc: Global,
    tree: &Node,
    home: Home,
    view: &mut V,
    customs: &C,
    steps: &mut Steps<L>,
) -> Result<Argument, AllocError>
    ensures means { IfOk result (λ found. found ≡ argument_of (references.reference_of (V.world view.old) (sheet_of home) (term_at home tree.now)) (meaning (V.world view.old) (C.customs customs.now) home (term_at home tree.now))) }
    ensures leaves { V.world view.new ≡ V.world view.old }
    ensures least { steps.old ≤ steps.new }
    ensures most { steps.new ≤ steps.old + cost (V.world view.old) (sheet_of home) (term_at home tree.now) }
    ensures asked { steps.new ≤ steps.old + asked_cost (V.world view.old) (sheet_of home) true (term_at home tree.now) }
    ensures room { IfOk result (λ found. steps.new + argument_size (V.world view.old) found ≤ steps.old + cost (V.world view.old) (sheet_of home) (term_at home tree.now)) }
{
    match reference_of(view, tree, home) {
        Some(reference) => Ok(Argument::Reference(reference)),
        None => Ok(Argument::Value(value(alloc, tree, home, view, customs, steps)?)),
    }
}
