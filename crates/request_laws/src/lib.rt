// The second request bit and serial polls over whole lists of calls: laws about the bus, and nothing to call.
#![tactic(auto)]
