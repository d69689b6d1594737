// The claim about whole lists (01, demand 3): a theorem of every two lists of calls, in specs/Claim.antt. There is nothing to call.
#![tactic(auto)]
