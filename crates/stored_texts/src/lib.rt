// No code: proofs/ has what the definitions answer to the stored bench texts, computed by the check.
#![tactic(auto)]
