// What steps change and what they leave: laws about the machine, over lists of turns. There is nothing here to call.
#![tactic(auto)]
