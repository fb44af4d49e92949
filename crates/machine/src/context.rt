//! The rules of contexts, as functions: `Context` is another crate's type, and a trait for them would be longer.
ghost use Rattle.std.specs.Prelude.{◌≡◌};
ghost use Rattle.machine.specs.Contexts.{first_context, in_range, is_ultravisor, ultravisor_rule, problem_rule, guest_rule, secure_rule, allowed as is_allowed};

use translation::registers::{Context, Registers};

/// The context of a thread when the machine starts: a hypervisor in real mode, with 64-bit addresses.
pub fn first_context() -> Context
    ensures { result ≡ first_context }
{
    Context {
        s: false,
        hv: true,
        pr: false,
        ir: false,
        dr: false,
        sf: true,
        lpid: 0,
        pid: 0,
    }
}

// Whether LPID and PID are in range.
fn in_range(c: &Context) -> bool
    ensures { result ≡ in_range c.now }
{
    c.lpid < 4096 && c.pid < 1048576
}

/// Whether a thread of this context is an ultravisor.
pub fn is_ultravisor(c: &Context) -> bool
    ensures { result ≡ is_ultravisor c.now }
{
    c.s && c.hv
}

// An ultravisor is not in problem state, and its addresses are not translated.
fn ultravisor_rule(c: &Context) -> bool
    ensures { result ≡ ultravisor_rule c.now }
{
    !is_ultravisor(c) || !c.pr && !c.ir && !c.dr
}

// In problem state all addresses are translated.
fn problem_rule(c: &Context) -> bool
    ensures { result ≡ problem_rule c.now }
{
    !c.pr || c.ir && c.dr
}

// A guest has a partition of its own.
fn guest_rule(c: &Context) -> bool
    ensures { result ≡ guest_rule c.now }
{
    c.hv || c.lpid != 0
}

// A thread is secure only with the facility on.
fn secure_rule(registers: &Registers, c: &Context) -> bool
    ensures { result ≡ secure_rule registers.now c.now }
{
    !c.s || registers.facility
}

/// Whether a thread may have this context.
pub fn allowed(registers: &Registers, c: &Context) -> bool
    ensures { result ≡ is_allowed registers.now c.now }
{
    in_range(c)
        && ultravisor_rule(c)
        && problem_rule(c)
        && guest_rule(c)
        && secure_rule(registers, c)
}
