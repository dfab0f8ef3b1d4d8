// Checks in order, of which the first that is at fault decides the answer.
//
// There is no code here: specs/ has the definition and proofs/ its laws. The contracts of every call that can refuse
// cite a table of such checks, in the order in which the rules list them.
#![tactic(auto)]
