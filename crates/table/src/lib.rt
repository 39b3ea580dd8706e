// No code: document 01's proof table, one theorem, computed from the definitions.
#![tactic(auto)]
