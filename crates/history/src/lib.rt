// The contracts of the eight public functions, and the theorems about them (01, What the contracts have to say): one answer only, exact
// refusals, reversible histories. Definitions are in specs/, theorems in proofs/, all demands on one page in proofs/Demands.antt. No code.
#![tactic(auto)]
