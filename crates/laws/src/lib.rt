// Laws of iteration, lists and cases that several layers cite; no code.

#![tactic(auto)]
