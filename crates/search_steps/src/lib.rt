// The two-parallel search as a machine. A step is one of document 02's motion card: one evaluation of the error.
// specs/ has the machine, proofs/ its theorem. Once through a loop of the definition, whose word is `Step`, is a turn here.
#![tactic(auto)]
