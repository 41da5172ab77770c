// Laws of the tasks place, claim and swap: what demand 3 asks of them, and how they join. No code.
#![tactic(auto)]
