//! The running machine, and its calls one by one.
ghost use Rattle.std.specs.Prelude.{◌≡◌, OnOk, OnErr, replicate};
ghost use Rattle.machine.specs.declared.calls.Call.TheVariants.{Enter, Load, Store, Fetch, Mark as Marks, Report};
ghost use Rattle.machine.specs.declared.calls.Answer.TheVariants.{Done, Loaded, Stored, Reported};
ghost use Rattle.machine.specs.State.{first_thread, state_of, context_of};
ghost use Rattle.machine.specs.Calls.{stopped, concluding, remarked, Makes, Steps};
ghost use Rattle.memory.specs.declared.protected.Mark.TheVariants.{Ordinary};
ghost use Rattle.memory.specs.Protected.{has_frame, answered, marked, zeroed};

use crate::context::{allowed, is_ultravisor};
use crate::refusal::{Refusal, Stop};
use crate::threads::{ThreadNumber, Threads};
use memory::protected::{Declined, Mark, ProtectedMemory};
use memory::zeroing::zero_frame;
use std::marker::Model;
use translation::access;
use translation::fault::Fault;
use translation::operand::{Instruction, Operand};
use translation::registers::{Context, Registers};

/// A machine that runs: the registers that were set up, its threads, and its memory.
#[derive(Drop)]
pub struct Machine<M> {
    registers: Registers,
    threads: Threads,
    memory: M,
}

// A machine is seen as what it holds.
impl<M> Model for Machine<M> {
    ghost use Rattle.machine.specs.State.{Held};

    ghost Value = { Held M };

    ghost view = { λ m. record { registers = m.registers; threads = m.threads; memory = m.memory } };
}

// Fills a frame with zeros, and then makes it ordinary.
fn release<M: ProtectedMemory>(memory: &mut M, frame: u64) -> Result<(), Declined>
    ensures answer { result ≡ answered (has_frame (M.meaning memory.old) frame) }
    ensures after { M.meaning memory.new ≡ marked (zeroed (M.meaning memory.old) frame) frame Ordinary }
    ensures keeps { M.keeps memory.old memory.new }
{
    zero_frame(memory, frame)?;
    memory.set_mark(frame, Mark::Ordinary)
}

// Turns a frame's mark to another. A mark already so changes nothing.
fn remark<M: ProtectedMemory>(memory: &mut M, frame: u64, mark: Mark) -> Result<(), Declined>
    ensures answer { result ≡ answered (has_frame (M.meaning memory.old) frame) }
    ensures ok { OnOk result (M.meaning memory.new ≡ remarked (M.meaning memory.old) frame mark) }
    ensures err { OnErr result (M.meaning memory.new ≡ M.meaning memory.old) }
    ensures keeps { M.keeps memory.old memory.new }
{
    match (memory.mark(frame)?, mark) {
        (Mark::Secure, Mark::Ordinary) => release(memory, frame),
        (Mark::Ordinary, Mark::Secure) => memory.set_mark(frame, mark),
        _ => Ok(()),
    }
}

impl<M: ProtectedMemory> Machine<M> {
    /// Changes a thread's context, and erases its fault record if S changes.
    pub fn enter(&mut self, thread: u64, context: Context) -> Result<(), Refusal>
        ensures { Makes M.meaning M.keeps self.old (Enter thread context) (Done result) self.new }
    {
        let thread = ThreadNumber::try_from(thread)?;
        if !allowed(&self.registers, &context) {
            return Err(Refusal::BadContext);
        }
        let before = self.threads.get(thread);
        self.threads.put(thread, before.entering(context));
        Ok(())
    }

    // What an access answers; its fault becomes the thread's record.
    fn conclude<A>(&mut self, thread: ThreadNumber, answer: Result<A, Fault>) -> Result<A, Stop>
        ensures answer { result ≡ stopped answer }
        ensures after { self.new ≡ concluding self.old thread.index answer }
    {
        if let Err(fault) = &answer {
            let before = self.threads.get(thread);
            self.threads.put(thread, before.faulting(*fault));
        }
        answer.map_err(Stop::Faulted)
    }

    // Load, store and fetch end alike: a closure for the access would need a longer clause than the lines it saves.

    /// Loads a datum of `width` bytes at base plus index: the value, the real address and the count.
    pub fn load(
        &mut self,
        thread: u64,
        width: u64,
        base: u64,
        index: u64,
    ) -> Result<(u64, u64, u64), Stop>
        ensures { Makes M.meaning M.keeps self.old (Load thread width base index) (Loaded result) self.new }
    {
        let thread = ThreadNumber::try_from(thread)?;
        let context = self.threads.get(thread).context;
        let operand = Operand::new(width, base, index)?;
        let answer = access::load(&self.registers, &context, &mut self.memory, &operand);
        self.conclude(thread, answer)
    }

    /// Stores a value of `width` bytes at base plus index: the real address and the count.
    pub fn store(
        &mut self,
        thread: u64,
        width: u64,
        base: u64,
        index: u64,
        value: u64,
    ) -> Result<(u64, u64), Stop>
        ensures { Makes M.meaning M.keeps self.old (Store thread width base index value) (Stored result) self.new }
    {
        let thread = ThreadNumber::try_from(thread)?;
        let context = self.threads.get(thread).context;
        let stored = Operand::new(width, base, index)?.with_value(value)?;
        let answer = access::store(&self.registers, &context, &mut self.memory, &stored);
        self.conclude(thread, answer)
    }

    /// Fetches an instruction at base plus index: its four bytes, the real address and the count.
    pub fn fetch(&mut self, thread: u64, base: u64, index: u64) -> Result<(u64, u64, u64), Stop>
        ensures { Makes M.meaning M.keeps self.old (Fetch thread base index) (Loaded result) self.new }
    {
        let thread = ThreadNumber::try_from(thread)?;
        let context = self.threads.get(thread).context;
        let instruction = Instruction::new(base, index)?;
        let answer = access::fetch(&self.registers, &context, &mut self.memory, &instruction);
        self.conclude(thread, answer)
    }

    /// Marks a frame, for an ultravisor. A frame that turns from secure to ordinary is filled with zeros first.
    pub fn mark(&mut self, thread: u64, frame: u64, mark: Mark) -> Result<(), Refusal>
        ensures { Makes M.meaning M.keeps self.old (Marks thread frame mark) (Done result) self.new }
    {
        let context = self.threads.get(thread.try_into()?).context;
        if !is_ultravisor(&context) {
            return Err(Refusal::NotUltravisor);
        }
        Ok(remark(&mut self.memory, frame, mark)?)
    }

    /// A thread's fault record, or none.
    pub fn report(&self, thread: u64) -> Result<Option<Fault>, Refusal>
        ensures { Steps (state_of M.meaning self.now) (Report thread) (Reported result) (state_of M.meaning self.now) }
    {
        Ok(self.threads.get(thread.try_into()?).fault)
    }

    /// A thread's context.
    pub fn context(&self, thread: u64) -> Result<Context, Refusal>
        ensures { result ≡ context_of self.now.threads thread }
    {
        Ok(self.threads.get(thread.try_into()?).context)
    }

    /// The machine's memory, to look at.
    pub fn memory(&self) -> &M
        ensures { result.now ≡ self.now.memory }
    {
        &self.memory
    }
}

impl<M> Machine<M> {
    /// A machine of these registers over a memory, each thread as it is at first.
    pub(crate) fn new(registers: Registers, memory: M) -> Machine<M>
        ensures { result ≡ record { registers = registers; threads = replicate 8 first_thread; memory = memory } }
    {
        Machine {
            registers,
            threads: Threads::new(),
            memory,
        }
    }

    /// The machine's memory back; the machine is used up.
    pub fn into_memory(self) -> M
        ensures { result ≡ self.memory }
    {
        self.memory
    }
}
