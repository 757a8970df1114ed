//! What the call that builds a flattened image tree with a plan returns for a small plan. Each
//! function does nothing: what it ensures is a fact about the definitions.

ghost use Rattle.bi_c.specs.KnownPlanCalls.{AlgorithmNumbersAreKnown, PlanIsKnown};
ghost use Rattle.bi_c.specs.KnownPlanCalls.{WrongPlansAreKnown};

/// The plan of a small call is known, and the tree that is built by it.
pub fn plan_is_known()
    ensures { PlanIsKnown }
{}

/// The numbers of the algorithms are known.
pub fn algorithm_numbers_are_known()
    ensures { AlgorithmNumbersAreKnown }
{}

/// Plans with wrong arguments are known.
pub fn wrong_plans_are_known()
    ensures { WrongPlansAreKnown }
{}
