// No code: proofs/ has what the definitions give for document 01's trial cases, as document 02 amends them, computed by the check.
#![tactic(auto)]
