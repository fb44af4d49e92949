//! Checks over any machine.
use machine::calls::{Answer, Call};
use machine::machine::Machine;
use memory::protected::ProtectedMemory;
use std::process::Abort;
use std::test::Fail;

/// Makes each call, and compares its answer.
pub fn answers_are<M: ProtectedMemory>(
    rt: &impl Abort,
    machine: &mut Machine<M>,
    steps: &[(Call, Answer)],
) -> Result<(), Fail> {
    for (call, answer) in steps {
        assert_eq!(rt; machine.call(*call), *answer);
    }
    Ok(())
}
