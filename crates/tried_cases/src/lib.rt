// No code: proofs/ has which rules the definitions say are tried in the stored readings, computed by the check.
#![tactic(auto)]
