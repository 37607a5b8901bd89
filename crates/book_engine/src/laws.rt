//! What holds of every list of calls: laws, with nothing to run.
ghost use Rattle.book_engine.specs.Calls.{AnyCallsFollow, CallsLead};

use crate::engine::Engine;
use calc_eval::Customs;

/// Each call leads the engine to the session after the operation that it asks for, or, where it wants memory, leaves the
/// session, whatever type its answer has.
pub fn calls_lead<C: Customs, X>(_engine: &Engine<C>)
    ensures { CallsLead C.customs X _engine.now }
{}

/// An engine that was asked for operations, one after the other, is in the session after all of them.
pub fn any_calls_follow<C: Customs>(_engine: &Engine<C>)
    ensures { AnyCallsFollow C.customs _engine.now }
{}
