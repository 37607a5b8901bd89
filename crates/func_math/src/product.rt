// PRODUCT.
ghost use Rattle.std.specs.Prelude.{◌≡◌};
ghost use Rattle.std.specs.List.{flat_map};
ghost use Rattle.func_args.specs.Lists.{listed};
ghost use Rattle.func_math.specs.Products.{product_value};
ghost use Rattle.func_math.specs.internal.Factors.{multiplied, with_factor, with_factors};

use cell_value::{Area, Arg, FaultKind, Scalar};
use fix_num::Fixed;
use func_args::{calculated, number_of};

// The product of the numbers so far, once there are any, or the fault that it failed by.
type Factors = Option<Result<Fixed, FaultKind>>;

// `PRODUCT(L, ..)`: the numbers multiplied one after another, of none 0.
pub(crate) fn product(args: &[Arg]) -> Result<Fixed, FaultKind>
    ensures { result ≡ product_value args.now }
{
    if args.is_empty() {
        return Err(FaultKind::Na);
    }
    let mut product = None;
    'arguments: for argument in args {
        match with_argument(product, argument) {
            Ok(more) => product = more,
            Err(fault) => return Err(fault),
        }
    }
    product.unwrap_or(Ok(Fixed::ZERO))
}

// The product with the numbers of one argument more, or their first fault.
fn with_argument(product: Factors, argument: &Arg) -> Result<Factors, FaultKind>
    ensures { result ≡ with_factors product (listed argument.now) }
{
    match argument {
        Arg::One(_) => {
            let number = number_of(argument)?;
            Ok(with_factor(product, number))
        }
        Arg::Many(area) => with_cells(product, area),
    }
}

// The product with the numbers of the cells, or their first fault.
fn with_cells(product: Factors, area: &Area) -> Result<Factors, FaultKind>
    ensures { result ≡ with_factors product area.now.values }
{
    let mut product = product;
    'cells: for cell in area.filled() {
        match &cell.value {
            Scalar::Number(number) => product = with_factor(product, *number),
            Scalar::Fault(fault) => return Err(*fault),
            _ => {}
        }
    }
    Ok(product)
}

// The product with one factor more, rounded to a millionth.
fn with_factor(product: Factors, factor: Fixed) -> Factors
    ensures { result ≡ with_factor product factor }
{
    match product {
        None => Some(multiplied(Ok(Fixed::ONE), factor)),
        Some(product) => Some(multiplied(product, factor)),
    }
}

// The product of both; a product that failed stays so.
fn multiplied(product: Result<Fixed, FaultKind>, factor: Fixed) -> Result<Fixed, FaultKind>
    ensures { result ≡ multiplied product factor }
{
    let product = product?;
    calculated(product.mul(factor))
}
