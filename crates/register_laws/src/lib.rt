// The chip's registers: laws about accesses to them, and nothing to call.
#![tactic(auto)]
