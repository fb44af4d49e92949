//! The threads of the task, its secret, and the calls that both lists make.
use machine::calls::Call;
use memory::protected::Mark;

/// The thread that becomes the ultravisor.
pub const ULTRAVISOR: u64 = 0;
/// The thread that becomes the secure guest.
pub const GUEST: u64 = 1;
/// A thread that stays what every thread is at first, a hypervisor in real mode.
pub const HYPERVISOR: u64 = 2;

/// The frame that holds the secret, and its address.
pub const SECRET_FRAME: u64 = 5;

pub const SECRET_AT: u64 = 0x5000;

/// A load of the secret.
pub fn load_secret(thread: u64) -> Call {
    Call::Load {
        thread,
        width: 8,
        base: SECRET_AT,
        index: 0,
    }
}

/// A call that marks the secret's frame.
pub fn mark_secret(thread: u64, mark: Mark) -> Call {
    Call::Mark {
        thread,
        frame: SECRET_FRAME,
        mark,
    }
}
