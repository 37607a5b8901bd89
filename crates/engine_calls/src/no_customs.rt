// Custom functions, of which there are none.
ghost use Rattle.std.specs.Prelude.{[]};

use calc_eval::Customs;
use cell_value::Scalar;

// No custom functions.
#[derive(Clone, Copy)]
pub(crate) struct NoCustoms;

impl Customs for NoCustoms {
    ghost customs = { λ _. [] };

    fn has(&self, _word: &str) -> bool {
        false
    }

    fn answer(&self, _word: &str, _value: &Scalar) -> Option<Scalar> {
        None
    }
}
