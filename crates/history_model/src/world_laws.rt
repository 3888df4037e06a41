//! Laws of the world. The functions do nothing: their contracts are the laws, and a law that rests
//! on one of the layer below calls it.

ghost use Rattle.history_model.specs.WorldLaws.{CoreSafe, ShutIsFinal, StepsAreCalls};
ghost use Rattle.history_model.specs.RunExample.{RunExample};

use rpq_model::{each_held_is_answers, events_grow, held_step};

/// After any steps that are allowed from the start, the lines are legal. The published position
/// isn't ahead of the entries that were fed, nor are these ahead of those that were appended. The
/// blocks are those of the entries that were fed, with their events, and the pairs kept are the
/// answers over them. Whoever looks gets the published position and the answers there; no reader's
/// position falls, and what a reader got earlier are the answers still, at its position.
pub fn core_safe()
    ensures { CoreSafe }
{
    each_held_is_answers();
    held_step();
    events_grow()
}

/// After a shut nothing is appended, fed or published.
pub fn shut_is_final()
    ensures { ShutIsFinal }
{}

/// In a safe world, a step that adds a line is allowed exactly where its call may come next. Until
/// a shut the next entry may be fed, whatever is published, and anyone may look at any time.
pub fn steps_are_calls()
    ensures { StepsAreCalls }
{}

/// Some steps that are allowed, and the world that they lead to.
pub fn run_example()
    ensures { RunExample }
{}
