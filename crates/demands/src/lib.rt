// The theorems over the definitions are in specs/, those of 2026-14 in proofs/. No code stands on them.
#![tactic(auto)]
