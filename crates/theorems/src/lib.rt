// What is claimed of the two ciphers as a whole: propositions in specs/, their proofs in proofs/; no code.

#![tactic(auto)]
