// The format of a record: definitions, and what is proved of them once for reader and writer.
#![tactic(auto)]
