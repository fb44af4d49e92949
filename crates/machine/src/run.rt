//! Lists of calls.
ghost use Rattle.std.specs.Prelude.{◌≡◌, MatchResult};
ghost use Rattle.machine.specs.State.{state_of};
ghost use Rattle.machine.specs.Calls.{Makes};
ghost use Rattle.machine.specs.Runs.{Ran};
ghost use Rattle.machine.specs.Isolation.{Isolated};

use crate::calls::{Answer, Call};
use crate::machine::Machine;
use memory::protected::ProtectedMemory;
use std::alloc::{AllocError, Global};

impl<M: ProtectedMemory> Machine<M> {
    /// Makes one call.
    pub fn call(&mut self, call: Call) -> Answer
        ensures { Makes M.meaning M.keeps self.old call result self.new }
    {
        match call {
            Call::Enter { thread, context } => Answer::Done(self.enter(thread, context)),
            Call::Load {
                thread,
                width,
                base,
                index,
            } => { Answer::Loaded(self.load(thread, width, base, index)) }
            Call::Store {
                thread,
                width,
                base,
                index,
                value,
            } => { Answer::Stored(self.store(thread, width, base, index, value)) }
            Call::Fetch {
                thread,
                base,
                index,
            } => Answer::Loaded(self.fetch(thread, base, index)),
            Call::Mark {
                thread,
                frame,
                mark,
            } => Answer::Done(self.mark(thread, frame, mark)),
            Call::Report { thread } => Answer::Reported(self.report(thread)),
        }
    }

    /// Makes a list of calls, and answers each. Where memory for the answers is wanting, nothing has changed.
    pub fn run(&mut self, heap: Global, calls: &[Call]) -> Result<Vec<Answer>, AllocError>
        ensures runs { MatchResult result
            (λ v. Ran (state_of M.meaning self.old) calls.now v.items (state_of M.meaning self.new))
            (λ _. state_of M.meaning self.new ≡ state_of M.meaning self.old) }
        ensures isolated { Isolated (state_of M.meaning self.old) calls.now }
        ensures keeps { M.keeps self.old.memory self.new.memory }
    {
        // No `map` and `collect`: room for every answer comes first, so that an error has made no call.
        let mut answers = Vec::with_capacity(heap, calls.len())?;
        for call in calls {
            answers.push_reserved(self.call(*call));
        }
        Ok(answers)
    }
}
