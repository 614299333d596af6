// The turns within which a run ends a byte: a law about the runner, and nothing to call.
#![tactic(auto)]
