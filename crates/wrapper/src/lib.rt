// How a call on the caller's own head is shown to meet its contract, from the call of the engine that it hands the head to; no code.

#![tactic(auto)]
