// Idle time, spent on formulas that weren't read since operations went past them.
ghost use Rattle.std.specs.Prelude.{◌≡◌, ◌↔◌, true, IfOk, OnOk};
ghost use Rattle.lazy_store.specs.Store as store;
ghost use Rattle.session_questions.specs.Seen.{Fits, ValuesFollowStill, state_of};

use crate::engine::Engine;
use calc_eval::Customs;
use session_questions::Parts;
use std::alloc::AllocError;

#[tactic(auto, unfolding(crate::specs::Engine::StandsFor))]
impl<C: Customs> Engine<C> {
    ghost use Rattle.book_engine.specs.Calls.{Stays};
    ghost use Rattle.book_engine.specs.Kept.{AreCaughtUp, ComeToCursor, GoOnWithin, KeepsLine, KeepsValues, MovesLagging};

    /// Takes formulas along that weren't read since operations went past them, as many as the budget suffices for, so that no later
    /// call takes all of them at once. Each costs as many units of the budget as there are operations between the position as of
    /// which it is kept and the cursor, and is kept as of the cursor then; one for which what is left of the budget doesn't suffice
    /// stays as it is. So a formula with more operations before it than the whole budget always stays. The answer is whether none is
    /// left: whether every formula that has a standing at the cursor is kept as of that or a later position.
    ///
    /// It is no operation: what every other call answers is as before, and the values that are kept and their marks stay. An
    /// application calls it when it is idle, until it answers true or there is something else to do. For want of memory one formula
    /// may have come part of the way.
    ///
    /// Costs a look at each formula, those that steps list among them, and for those that are taken what [`Engine::formula`] does. Of
    /// a formula that is gone it goes over the operations up to the one that removed its cell.
    ///
    /// ```text
    /// while !engine.settle_idle(10_000)? {
    ///     if something_to_do() { break; }
    /// }
    /// ```
    pub fn settle_idle(&mut self, budget: u64) -> Result<bool, AllocError>
        ensures stays { Stays C.customs self.old self.new }
        ensures line { KeepsLine self.old self.new }
        ensures others { MovesLagging self.old self.new }
        ensures placed { OnOk result (ComeToCursor self.old self.new) }
        ensures budget { OnOk result (GoOnWithin budget self.old self.new) }
        ensures all { IfOk result (λ all. (all ≡ true) ↔ AreCaughtUp self.new) }
        ensures values { KeepsValues self.old self.new }
    {
        settle_idle(&mut self.parts, budget)
    }
}

// Takes formulas that lag behind the cursor to it, as far as the budget goes.
fn settle_idle(parts: &mut Parts, budget: u64) -> Result<bool, AllocError>
    requires { Fits parts.old }
    ensures state { state_of parts.new ≡ state_of parts.old }
    ensures fits { Fits parts.new }
    ensures line { parts.new.session.book.lazy.line ≡ parts.old.session.book.lazy.line }
    ensures others { store.MovesLagging parts.old.session.book.lazy.line.cursor parts.old.session.book.lazy parts.new.session.book.lazy }
    ensures placed { OnOk result (store.StayOrComeTo parts.old.session.book.lazy.line.cursor parts.old.session.book.lazy parts.new.session.book.lazy) }
    ensures budget { OnOk result (store.GoOnWithin budget parts.old.session.book.lazy parts.new.session.book.lazy) }
    ensures all { IfOk result (λ all. (all ≡ true) ↔ store.AreCaughtUp parts.new.session.book.lazy) }
    ensures follow { ValuesFollowStill parts.old parts.new }
    ensures values { parts.new.values ≡ parts.old.values }
{
    parts.session.catch_up(budget)
}
