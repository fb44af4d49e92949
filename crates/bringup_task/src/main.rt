//! One bring-up task on a machine, from start to end, told in plain sentences; and then the same calls on two machines
//! that differ in a secret.
#![tactic(auto)]

mod scene;
mod task;
mod twins;
mod words;

fn tell(rt: &(impl Print + AllocGlobal)) -> anyhow::Result<()> {
    task::tell_task(rt, rt.alloc())?;
    println!(rt; "")?;
    twins::tell_twins(rt, rt.alloc())
}

fn main(rt: HostRuntime) -> anyhow::Result<()> {
    tell(&rt)
}
