// Document 01's "Known results, marked for proof": specs/KnownResults.antt states the table, and
// proofs/Table.antt proves every row by computing the definitions that the functions are proved
// equal to. There is no code here.
#![tactic(auto)]
