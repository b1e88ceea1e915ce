// No code: what plans and judgements say of each other, in the one place that has both calls in view.
#![tactic(auto)]
