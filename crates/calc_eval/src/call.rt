// What functions make of their arguments, once these are worked out.
ghost use Rattle.std.specs.Prelude.{◌≡◌, ◌+◌, ◌≤◌, IfOk, is_some, map, Some, true};
ghost use Rattle.std.specs.List.{flat_map};
ghost use Rattle.cell_value.specs.Summary.{IsBounded, summary_of};
ghost use Rattle.custom_fn.specs.Registry.{custom_named};
ghost use Rattle.func_args.specs.Lists.{listed};
ghost use Rattle.func_math.specs.Functions.{of_summary};
ghost use Rattle.func_math.specs.Math.{math_value};
ghost use Rattle.formula_tree.specs.Reference.{base_of};
ghost use Rattle.calc_terms.specs.Calls as calls;
ghost use Rattle.calc_terms.specs.Cost.{block_size};
ghost use Rattle.calc_terms.specs.Places as places;
ghost use Rattle.calc_terms.specs.References.{argument_block, argument_cells, argument_size, argument_value, data_arguments, reference_cells};
ghost use Rattle.calc_terms.specs.Words.{takes_block};
ghost use Rattle.calc_eval.specs.internal.Steps.{sizes};

use crate::argument::{data_arguments, value_of};
use crate::customs::Customs;
use crate::view::View;
use calc_terms::{Argument, DataFn, PlaceFn, Reference};
use cell_value::{FaultKind, Scalar, Summary};
use formula_tree::Home;
use func_args::{join_summaries, number_value};
use func_math::{MathFn, summarized};
use std::alloc::{AllocError, Global};
use std::sync::ledger::Ledger;
use steps::Steps;

// The value of a function that asks where a reference is, in a formula at the home.
#[tactic(auto, using(crate::proofs::Data::many_places), unfolding(calc_terms::specs::Places::place_value))]
pub(crate) fn place_value(f: PlaceFn, home: Home, args: &[Argument]) -> Scalar
    ensures { result ≡ places.place_value f (base_of home) (map argument_block args.now) }
{
    match args {
        [] => calc_terms::place_value(f, home.base(), &[]),
        [argument] => calc_terms::place_value(f, home.base(), &[argument.block()]),
        [_, _, ..] => Scalar::Fault(FaultKind::Na),
    }
}

// The value of the custom function of a word, which takes one value.
pub(crate) fn custom_value<V: View, C: Customs>(
    alloc: Global,
    word: &str,
    customs: &C,
    args: &[Argument],
    view: &V,
) -> Result<Scalar, AllocError>
    requires { is_some (custom_named word.now (C.customs customs.now)) ≡ true }
    ensures { IfOk result (λ value. value ≡ calls.custom_call (V.world view.now) (custom_named word.now (C.customs customs.now)) args.now) }
{
    match args {
        [argument] => {
            let value = value_of(alloc, argument, view)?;
            match customs.answer(word, &value) {
                Some(answer) => Ok(answer),
                None => Ok(Scalar::Fault(FaultKind::Name)),
            }
        }
        _ => Ok(Scalar::Fault(FaultKind::Na)),
    }
}

// The value of a function of values and blocks. SUM, AVERAGE, MIN, MAX and COUNT ask the view for the summaries
// of blocks, and all others for their cells.
pub(crate) fn data_value<V: View, L: Ledger>(
    alloc: Global,
    f: DataFn,
    args: &[Argument],
    view: &mut V,
    steps: &mut Steps<L>,
) -> Result<Scalar, AllocError>
    ensures means { IfOk result (λ value. value ≡ calls.data_value f (V.world view.old).today (data_arguments (V.world view.old) (takes_block f) 0 args.now)) }
    ensures leaves { V.world view.new ≡ V.world view.old }
    ensures least { steps.old ≤ steps.new }
    ensures most { steps.new ≤ steps.old + sizes (V.world view.old) args.now }
{
    match f {
        DataFn::Math(f) if f.is_of_summary() => summary_value(alloc, f, args, view, steps),
        _ => {
            let data = data_arguments(alloc, f, args, view)?;
            calc_terms::data_value(alloc, f, &data, view.day())
        }
    }
}

// The value of SUM, AVERAGE, MIN, MAX or COUNT.
fn summary_value<V: View, L: Ledger>(
    alloc: Global,
    f: MathFn,
    args: &[Argument],
    view: &mut V,
    steps: &mut Steps<L>,
) -> Result<Scalar, AllocError>
    requires { of_summary f ≡ true }
    ensures means { IfOk result (λ value. value ≡ math_value f (map (argument_cells (V.world view.old)) args.now)) }
    ensures leaves { V.world view.new ≡ V.world view.old }
    ensures least { steps.old ≤ steps.new }
    ensures most { steps.new ≤ steps.old + sizes (V.world view.old) args.now }
{
    if args.is_empty() {
        return Ok(Scalar::Fault(FaultKind::Na));
    }
    let summary = list_summary(alloc, args, view, steps)?;
    Ok(summarized(f, &summary))
}

// What the numbers of all arguments come to.
fn list_summary<V: View, L: Ledger>(
    alloc: Global,
    args: &[Argument],
    view: &mut V,
    steps: &mut Steps<L>,
) -> Result<Summary, AllocError>
    ensures means { IfOk result (λ summary. summary ≡ summary_of (flat_map listed (map (argument_cells (V.world view.old)) args.now))) }
    ensures leaves { V.world view.new ≡ V.world view.old }
    ensures least { steps.old ≤ steps.new }
    ensures most { steps.new ≤ steps.old + sizes (V.world view.old) args.now }
{
    let mut total = Summary::new();
    'arguments: for argument in args {
        let next = argument_summary(alloc, argument, view, steps)?;
        total = join_summaries(&total, &next)?;
    }
    Ok(total)
}

// What the numbers of one argument come to.
fn argument_summary<V: View, L: Ledger>(
    alloc: Global,
    argument: &Argument,
    view: &mut V,
    steps: &mut Steps<L>,
) -> Result<Summary, AllocError>
    ensures means { IfOk result (λ summary. summary ≡ summary_of (listed (argument_cells (V.world view.old) argument.now))) }
    ensures bounded { IfOk result IsBounded }
    ensures leaves { V.world view.new ≡ V.world view.old }
    ensures least { steps.old ≤ steps.new }
    ensures most { steps.new ≤ steps.old + argument_size (V.world view.old) argument.now }
{
    match argument {
        Argument::Reference(reference) => reference_summary(alloc, *reference, view, steps),
        Argument::Value(value) => Ok(Summary::of(&number_value(value.as_number()))),
    }
}

// What the numbers of a reference's cells come to.
fn reference_summary<V: View, L: Ledger>(
    alloc: Global,
    reference: Reference,
    view: &mut V,
    steps: &mut Steps<L>,
) -> Result<Summary, AllocError>
    ensures means { IfOk result (λ summary. summary ≡ summary_of (reference_cells (V.world view.old) reference).values) }
    ensures bounded { IfOk result IsBounded }
    ensures leaves { V.world view.new ≡ V.world view.old }
    ensures least { steps.old ≤ steps.new }
    ensures most { steps.new ≤ steps.old + block_size (V.world view.old) (Some reference) }
{
    match reference {
        Reference::Cell(at) => Ok(Summary::of(view.scalar(at))),
        Reference::Area(block) => view.summary(alloc, block.block(), steps),
    }
}
