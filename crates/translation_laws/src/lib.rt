//! Theorems over the definitions of an access. Each function's contract is one, and without its proof this crate is not
//! proved.
#![tactic(auto)]

ghost use Rattle.translation_laws.specs.Table.{ReferenceTable};
ghost use Rattle.translation_laws.specs.Unguarded.{GuardsIdle};

/// The reference table holds: what one memory answers to a list of accesses, and how it stands after them.
#[tactic(auto, using(crate::proofs::Cases::reference_table))]
pub fn reference_table()
    ensures { ReferenceTable }
{}

/// Every access answers and leaves the same if the questions that rely on an earlier reach look at no mark and no size.
#[tactic(auto, using(crate::proofs::Sure::guards_idle))]
pub fn guards_are_idle()
    ensures { GuardsIdle }
{}
