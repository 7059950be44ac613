// Demand 3 and the exchanges of document 01, with document 02's blocks (M-100), and its hand-over (M-112) over lists of calls,
// stated and proved of the gateway's own calls.
//
// `specs/` has the calls as one step and a list of them, the ledger that is kept beside them (document 01's book), and the
// statements; `proofs/Theorem.antt` has the theorem over every list of calls from every start, `proofs/Exchanges.antt` the exchanges A
// to M, `proofs/Blocks.antt` and `Cuts.antt` the blocks, `proofs/Drained.antt`, `Ready.antt` and `Handing.antt` what the hand-over
// asks. The only code is `steps`: each call of the gateway once, proved to be the step that the statements speak of.
#![tactic(auto)]

mod steps;
