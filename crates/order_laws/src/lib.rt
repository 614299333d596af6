// Turns of acceptors in any order: laws about the machine, and nothing to call.
#![tactic(auto)]
