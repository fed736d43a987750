// Day sheets of stored texts, computed by the definitions.
#![tactic(auto)]
