// Laws of the order of values, of their coercions and of their summaries. The functions do nothing: what each ensures
// is the law.
ghost use Rattle.cell_value.specs.Laws.{ValuesAreOrdered, EachTwoCompare, EmptyIsOrderedInAKind, EmptyIsInNoOrder, NotAllAreOrdered, NumbersCompareBySize, TextsAreEqualWhenFolded, KindsAreInOrder, FaultsDecide, SameAreEqual, FaultsAreNamedBySpelling, NumbersAreReadBack, TruthsAreReadBack};
ghost use Rattle.cell_value.specs.Summary.{SummariesJoin};

/// Numbers, texts and truth values together are in one total order.
pub fn values_are_ordered()
    ensures { ValuesAreOrdered }
{}

/// Each two scalars that are no faults compare, and the other way round in reverse.
pub fn each_two_compare()
    ensures { EachTwoCompare }
{}

/// `Empty` beside values of one kind is in their total order.
pub fn empty_is_ordered_in_a_kind()
    ensures { EmptyIsOrderedInAKind }
{}

/// `Empty` beside values of two kinds isn't in a total order: it equals both 0 and the text of no
/// characters, of which one is before the other.
pub fn empty_is_in_no_order()
    ensures witness { EmptyIsInNoOrder }
    ensures so { NotAllAreOrdered }
{}

/// Numbers compare by size.
pub fn numbers_compare_by_size()
    ensures { NumbersCompareBySize }
{}

/// Texts are equal exactly where they are the same bytes with ASCII capitals made small.
pub fn texts_are_equal_when_folded()
    ensures { TextsAreEqualWhenFolded }
{}

/// Each number is before each text, and each text before each truth value.
pub fn kinds_are_in_order()
    ensures { KindsAreInOrder }
{}

/// A fault decides a comparison, the one on the left before that on the right.
pub fn faults_decide()
    ensures { FaultsDecide }
{}

/// `==` of scalars holds exactly of those that stand for the same.
pub fn same_are_equal()
    ensures { SameAreEqual }
{}

/// A text names a fault exactly where it is its spelling, with letters in any case.
pub fn faults_are_named_by_spelling()
    ensures { FaultsAreNamedBySpelling }
{}

/// The summary of two lists of values after each other joins those of both.
pub fn summaries_join()
    ensures { SummariesJoin }
{}

/// The text of a number or of a truth value is read back as what it was.
pub fn texts_are_read_back()
    ensures numbers { NumbersAreReadBack }
    ensures truths { TruthsAreReadBack }
{}
