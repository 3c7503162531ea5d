// The rule that a card keeps: which settings, strings and answers any list of calls names.
#![tactic(auto)]
