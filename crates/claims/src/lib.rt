// What is claimed of the library as a whole: the demands and the listing, stated over the definitions that the contracts of the other
// crates cite.
//
// There is no code here, and no crate calls it. specs/ has the statements, each for a reader who knows the demand and not the
// proofs; proofs/ has the proofs.
#![tactic(auto)]
