#![tactic(auto)]

// What a network's state, its calls and a history of calls are: definitions only.
