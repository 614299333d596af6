// What every bus that calls and runs lead to is like, and every answer on it: laws about the bus, and nothing to call.
#![tactic(auto)]
