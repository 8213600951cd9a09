// The law over runs of a book.
#![tactic(auto)]

ghost use Rattle.law.specs.Runs.{RunLaw, StepExists, StepOne};

// The law holds; every call on every book has a step, and what a step answers and leaves is determined.
pub fn law_stands()
    ensures runs { RunLaw }
    ensures exists { StepExists }
    ensures one { StepOne }
{}
