// Named expressions as links show them.
use cell_addr::Text;
use std::cmp::Ordering;

// A named expression as a link shows it: its scope, and its word in capitals. Those of the whole workbook come first,
// then sheet by sheet, and within a scope they are ordered by the bytes of their words.
#[derive(Drop, Debug)]
pub(crate) struct ShownName {
    pub(crate) scope: Option<u32>,
    pub(crate) word: Text,
}

impl PartialEq for ShownName {
    ghost use Rattle.std.specs.Cmp.{eq_by_cmp_equiv, partial_equiv_from_equiv};
    ghost use Rattle.std.specs.Ordering.{eq_by_cmp};
    ghost use Rattle.session_questions.specs.internal.Names.{shown_cmp, shown_cmp-IsTotalOrder};

    ghost eq = { eq_by_cmp shown_cmp };

    ghost laws = { partial_equiv_from_equiv (eq_by_cmp_equiv shown_cmp-IsTotalOrder) };

    fn eq(&self, other: &ShownName) -> bool {
        self.cmp(other).is_eq()
    }
}

impl Eq for ShownName {
    ghost use Rattle.std.specs.Cmp.{eq_by_cmp_equiv};
    ghost use Rattle.session_questions.specs.internal.Names.{shown_cmp-IsTotalOrder};

    ghost laws = { eq_by_cmp_equiv shown_cmp-IsTotalOrder };
}

impl PartialOrd for ShownName {
    ghost use Rattle.std.specs.Cmp.{partial_order_from_total};
    ghost use Rattle.std.specs.Prelude.{Some};
    ghost use Rattle.session_questions.specs.internal.Names.{shown_cmp, shown_cmp-IsTotalOrder};

    ghost partial_cmp = { λ x y. Some (shown_cmp x y) };

    ghost laws = { partial_order_from_total shown_cmp-IsTotalOrder };

    fn partial_cmp(&self, other: &ShownName) -> Option<Ordering> {
        Some(self.cmp(other))
    }
}

impl Ord for ShownName {
    ghost use Rattle.std.specs.Prelude.{refl};
    ghost use Rattle.session_questions.specs.internal.Names.{shown_cmp, shown_cmp-IsTotalOrder};

    ghost cmp = { shown_cmp };

    ghost total = { shown_cmp-IsTotalOrder };

    ghost matches_partial_cmp = { λ x y. refl };

    ghost matches_eq = { λ x y. refl };

    fn cmp(&self, other: &ShownName) -> Ordering {
        self.scope
            .cmp(&other.scope)
            .then(self.word.as_bytes().cmp(other.word.as_bytes()))
    }
}
