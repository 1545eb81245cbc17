// The theorems: in specs/, and in proofs/ those that an edit of a definition in must-fail/ breaks, with what rests on them.

#![tactic(auto)]
