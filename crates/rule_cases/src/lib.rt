// No code: the proved table of the paper, cases and answers, and that the rules give these answers.
#![tactic(auto)]
