// What the clocks are and what is true of them, apart from the code that runs them.
#![tactic(auto)]

ghost use Rattle.clocks_theory.specs.Laws.{Laws};
ghost use Rattle.clocks_theory.specs.Samples.{Samples};

// Sample readings, as facts about the definitions.
pub fn samples()
    ensures { Samples }
{}

// What is true of each clock over every list of readings.
#[tactic(auto, using(crate::proofs::Accounts::account_laws))]
pub fn laws()
    ensures { Laws }
{}
