//! One access: a load, a store or a fetch.
ghost use Rattle.std.specs.Prelude.{◌≡◌, ◌+◌, ◌*◌, ◌%◌, ◌^◌, ◌<◌, ◌≤◌};
ghost use Rattle.translation.specs.declared.datum.Ask.TheVariants.{ToLoad, ToFetch, ToStore};
ghost use Rattle.translation.specs.Widths.{bytes_of};
ghost use Rattle.translation.specs.Route.{lpid_of};
ghost use Rattle.translation.specs.Request.{stored_value};
ghost use Rattle.translation.specs.Isolation.{Isolated};
ghost use Rattle.translation.specs.Access.{kind_of, real_access as real_accesses, guest_access as guest_accesses, process_access as process_accesses, access_by as accesses_by, accessed, without_value, FewRead, FewPlaced};
ghost use Rattle.translation.specs.Underway.{Performs};

use crate::datum::{Ask, Datum};
use crate::fault::{Cause, Fault, Layer, Purpose, Site};
use crate::operand::{Instruction, Operand, Stored};
use crate::reach::Access;
use crate::registers::{Context, Registers, Route};
use crate::widths::Width;
use memory::protected::ProtectedMemory;

impl<M: ProtectedMemory> Access<'_, M> {
    // An access at a real address.
    #[tactic(auto, using(crate::proofs::Performing::steps), unfolding(crate::specs::Access::real_access))]
    fn real_access(&mut self, datum: &Datum, addr: u64) -> Result<(u64, u64, u64), Fault>
        ensures performs { Performs M.meaning M.keeps self.old (real_accesses datum.now.ask (bytes_of datum.now.width) datum.now.offset addr) result self.new }
        ensures few { self.new.count ≡ self.old.count }
    {
        self.reach(Site::new(Purpose::Datum, 0, 0), addr)?;
        Ok(self.use_datum(datum, addr))
    }

    // An access at a guest real address.
    #[tactic(auto, using(crate::proofs::Performing::steps), unfolding(crate::specs::Access::guest_access))]
    fn guest_access(&mut self, datum: &Datum, addr: u64) -> Result<(u64, u64, u64), Fault>
        requires { self.old.count + 6 < 2 ^ 32 }
        ensures performs { Performs M.meaning M.keeps self.old (guest_accesses (kind_of datum.now.ask) self.old.setting.lpid datum.now.ask (bytes_of datum.now.width) datum.now.offset addr) result self.new }
        ensures few { self.new.count ≤ self.old.count + 6 }
    {
        let kind = datum.ask.kind();
        let partition = self.partition_entry()?;
        let reached = self.guest_reach(&partition.tree, Purpose::Datum, kind, addr)?;
        self.settle(kind, &reached.leaf);
        Ok(self.use_datum(datum, reached.real))
    }

    // An access at an offset of a process's tree.
    #[tactic(auto, using(crate::proofs::Performing::steps), unfolding(crate::specs::Access::process_access))]
    fn process_access(
        &mut self,
        pid: u64,
        problem: bool,
        offset: u64,
        datum: &Datum,
    ) -> Result<(u64, u64, u64), Fault>
        requires { self.old.count + 35 < 2 ^ 32 }
        ensures performs { Performs M.meaning M.keeps self.old (process_accesses (kind_of datum.now.ask) self.old.setting.lpid pid problem datum.now.ask (bytes_of datum.now.width) datum.now.offset offset) result self.new }
        ensures few { self.new.count ≤ self.old.count + 35 }
    {
        let kind = datum.ask.kind();
        let partition = self.partition_entry()?;
        let descriptor = self.process_entry(&partition, pid)?;
        let leaf = self.process_leaf(&partition.tree, problem, kind, offset, descriptor)?;
        let reached = self.guest_reach(&partition.tree, Purpose::Datum, kind, leaf.address)?;
        self.settle_process(&partition.tree, kind, &leaf)?;
        self.settle(kind, &reached.leaf);
        Ok(self.use_datum(datum, reached.real))
    }

    // An access by its route.
    #[tactic(auto, unfolding(crate::specs::Access::access_by))]
    fn access_by(
        &mut self,
        route: &Route,
        problem: bool,
        datum: &Datum,
    ) -> Result<(u64, u64, u64), Fault>
        requires count { self.old.count ≡ 0 }
        requires lpid { self.old.setting.lpid ≡ lpid_of route.now }
        ensures performs { Performs M.meaning M.keeps self.old (accesses_by route.now (kind_of datum.now.ask) problem datum.now.ask (bytes_of datum.now.width) datum.now.offset) result self.new }
        ensures few { self.new.count ≤ 35 }
    {
        match *route {
            Route::NoSegment => {
                let site = Site::new(Purpose::Datum, 0, 0);
                self.check(site, Layer::Process, Err(Cause::Segment))
            }
            Route::AtReal { address } => self.real_access(datum, address),
            Route::AtGuest { address, .. } => self.guest_access(datum, address),
            Route::AtProcess { pid, offset, .. } => self.process_access(
                pid, problem, offset, datum,
            ),
        }
    }
}

// One access.
fn access<M: ProtectedMemory>(
    registers: &Registers,
    context: &Context,
    memory: &mut M,
    ask: Ask,
    width: Width,
    address: u64,
) -> Result<(u64, u64, u64), Fault>
    requires inside { bytes_of width + address % 8 ≤ 8 }
    requires fits { stored_value ask < 2 ^ (8 * bytes_of width) }
    ensures answer { result ≡ (accessed registers.now context.now (M.meaning memory.old) ask (bytes_of width) address).0 }
    ensures after { M.meaning memory.new ≡ (accessed registers.now context.now (M.meaning memory.old) ask (bytes_of width) address).1.memory }
    ensures few { FewRead result }
    ensures isolated { Isolated registers.now context.now (M.meaning memory.old) ask (bytes_of width) address }
    ensures keeps { M.keeps memory.old memory.new }
{
    let ea = context.effective(address);
    let kind = ask.kind();
    let route = registers.route(context, kind, ea);
    let datum = Datum {
        ask,
        width,
        offset: ea % 8,
    };
    let mut access = Access {
        setting: registers.setting(context, kind, ea, route.lpid()),
        memory,
        count: 0,
    };
    access.access_by(&route, context.pr, &datum)
}

// What a store answers of what an access does.
fn place_and_count(answer: Result<(u64, u64, u64), Fault>) -> Result<(u64, u64), Fault>
    ensures value { result ≡ without_value answer }
    ensures few { FewRead answer → FewPlaced result }
{
    answer.map(|(_, real, count)| (real, count))
}

// Registers, context and memory are what an access is given, and no call builds a struct of them first. One record for
// the five facts would take the shape of the answer, and what `few` says of it, as arguments. Value, real address and
// count are a tuple, as the rules have them: a caller takes it apart at once.

/// A load: the value, the real address and the count, or the fault.
pub fn load<M: ProtectedMemory>(
    registers: &Registers,
    context: &Context,
    memory: &mut M,
    operand: &Operand,
) -> Result<(u64, u64, u64), Fault>
    ensures answer { result ≡ (accessed registers.now context.now (M.meaning memory.old) ToLoad (bytes_of operand.now.width) operand.now.address).0 }
    ensures after { M.meaning memory.new ≡ (accessed registers.now context.now (M.meaning memory.old) ToLoad (bytes_of operand.now.width) operand.now.address).1.memory }
    ensures few { FewRead result }
    ensures isolated { Isolated registers.now context.now (M.meaning memory.old) ToLoad (bytes_of operand.now.width) operand.now.address }
    ensures keeps { M.keeps memory.old memory.new }
{
    access(
        registers,
        context,
        memory,
        Ask::ToLoad,
        operand.width,
        operand.address,
    )
}

/// A fetch of four bytes: the value, the real address and the count, or the fault.
pub fn fetch<M: ProtectedMemory>(
    registers: &Registers,
    context: &Context,
    memory: &mut M,
    instruction: &Instruction,
) -> Result<(u64, u64, u64), Fault>
    ensures answer { result ≡ (accessed registers.now context.now (M.meaning memory.old) ToFetch 4 instruction.now.address).0 }
    ensures after { M.meaning memory.new ≡ (accessed registers.now context.now (M.meaning memory.old) ToFetch 4 instruction.now.address).1.memory }
    ensures few { FewRead result }
    ensures isolated { Isolated registers.now context.now (M.meaning memory.old) ToFetch 4 instruction.now.address }
    ensures keeps { M.keeps memory.old memory.new }
{
    access(
        registers,
        context,
        memory,
        Ask::ToFetch,
        Width::Word,
        instruction.address,
    )
}

/// A store: the real address and the count, or the fault.
pub fn store<M: ProtectedMemory>(
    registers: &Registers,
    context: &Context,
    memory: &mut M,
    stored: &Stored,
) -> Result<(u64, u64), Fault>
    ensures answer { result ≡ without_value (accessed registers.now context.now (M.meaning memory.old) (ToStore stored.now.value) (bytes_of stored.now.operand.width) stored.now.operand.address).0 }
    ensures after { M.meaning memory.new ≡ (accessed registers.now context.now (M.meaning memory.old) (ToStore stored.now.value) (bytes_of stored.now.operand.width) stored.now.operand.address).1.memory }
    ensures few { FewPlaced result }
    ensures isolated { Isolated registers.now context.now (M.meaning memory.old) (ToStore stored.now.value) (bytes_of stored.now.operand.width) stored.now.operand.address }
    ensures keeps { M.keeps memory.old memory.new }
{
    let answer = access(
        registers,
        context,
        memory,
        Ask::ToStore(stored.value),
        stored.operand.width,
        stored.operand.address,
    );
    place_and_count(answer)
}
