//! What holds of every history: laws, with nothing to run. `E` is the type of entries.

ghost use Rattle.undo_book.specs.Laws.{PushKeepsLimit, PushedIsNewest, PushLosesOldest, StepBackUndoesPush, ForwardUndoesBack, BackUndoesForward};

/// No more entries are left than the limit allows.
pub fn pushes_keep_the_limit<E>()
    ensures { PushKeepsLimit E }
{}

/// The newest is the entry that was added, unless the limit allows none.
pub fn a_pushed_entry_is_the_newest<E>()
    ensures { PushedIsNewest E }
{}

/// Of the entries that were done a push drops none but the oldest beyond the limit, and the others stay in their order.
pub fn pushes_lose_the_oldest<E>()
    ensures { PushLosesOldest E }
{}

/// Where the limit allows one more, a step back from an added entry leaves what was done before it.
pub fn a_step_back_undoes_a_push<E>()
    ensures { StepBackUndoesPush E }
{}

/// A step forward undoes a step back.
pub fn forward_undoes_back<E>()
    ensures { ForwardUndoesBack E }
{}

/// A step back undoes a step forward.
pub fn back_undoes_forward<E>()
    ensures { BackUndoesForward E }
{}
