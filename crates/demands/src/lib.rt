// The three demands of the README, stated of the public calls and proved: each sentence with its theorems in
// proofs/Demand1.antt to Demand3.antt, further sentences of document 01 in proofs/Document01.antt, document 02's in
// proofs/Request01.antt and on, what they speak of in specs/. No function stands here.

#![tactic(auto)]
