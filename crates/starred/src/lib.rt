// The starred examples of document 01, proved of the definitions: the rows stand in specs/Examples.antt, the claim that each
// holds in proofs/Starred.antt. No function stands here.

#![tactic(auto)]
