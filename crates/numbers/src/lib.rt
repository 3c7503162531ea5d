// Numbers of two and four bytes, low byte first: the definitions that frames, payloads and kept strings share.
#![tactic(auto)]
