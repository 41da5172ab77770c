// Laws of texts: what is written is read back, every limit is reached, and theorem N. No code.
#![tactic(auto)]
