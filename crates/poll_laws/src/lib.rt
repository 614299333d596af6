// The parallel poll: laws about its answers and what it leaves, and nothing to call.
#![tactic(auto)]
