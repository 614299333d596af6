// Who drives each line, and how many they are: laws about the bus, and nothing to call.
#![tactic(auto)]
