//! Faults and answers in words. Functions, and no `Display`: of a fault they tell more than its own does, and of an answer,
//! a type of the machine's, one would need a wrapper.
use machine::calls::Answer;
use machine::refusal::{Refusal, Stop};
use translation::fault::Fault;

/// Tells a fault: its cause, layer and purpose, where it stopped, and its vector.
pub fn tell_fault(rt: &impl Print, fault: &Fault) -> anyhow::Result<()> {
    let Fault {
        cause,
        layer,
        purpose,
        ea,
        real,
        vector,
        ..
    } = *fault;
    let why = u64::from(cause);
    println!(rt; "  a fault: {cause} (cause {why}), {layer}, on the way to {purpose};")?;
    println!(rt; "  effective address {ea:#06x}, real address {real:#06x}, vector {vector:#x}.")?;
    Ok(())
}

/// Tells why an access gave no answer.
pub fn tell_stop(rt: &impl Print, stop: &Stop) -> anyhow::Result<()> {
    match stop {
        Stop::Declined(refusal) => tell_refusal(rt, *refusal),
        Stop::Faulted(fault) => tell_fault(rt, fault),
    }
}

/// Tells a refusal.
pub fn tell_refusal(rt: &impl Print, refusal: Refusal) -> anyhow::Result<()> {
    println!(rt; "  {refusal}.")?;
    Ok(())
}

/// Tells an answer.
pub fn tell_answer(rt: &impl Print, answer: &Answer) -> anyhow::Result<()> {
    match answer {
        Answer::Done(Ok(())) => println!(rt; "  done.")?,
        Answer::Loaded(Ok((value, real, count))) => println!(rt;
            "  the value {value:#018x}, from real address {real:#06x}; table doublewords read: {count}."
        )?,
        Answer::Stored(Ok((real, count))) => println!(rt;
            "  stored at real address {real:#06x}; table doublewords read: {count}."
        )?,
        Answer::Reported(Ok(None)) => println!(rt; "  no fault.")?,
        Answer::Reported(Ok(Some(fault))) => return tell_fault(rt, fault),
        Answer::Done(Err(refusal)) | Answer::Reported(Err(refusal)) => {
            return tell_refusal(rt, *refusal);
        }
        Answer::Loaded(Err(stop)) | Answer::Stored(Err(stop)) => return tell_stop(rt, stop),
    }
    Ok(())
}
