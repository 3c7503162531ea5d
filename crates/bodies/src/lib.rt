// The bodies of the sentences and the payload of the frame that tell a fix, field by field: definitions and their laws.
#![tactic(auto)]
