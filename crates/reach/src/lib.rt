// How far one late figure reaches (02, W14): a theorem of every list of calls, in specs/Reach.antt and specs/Needed.antt. There
// is nothing to call.
#![tactic(auto)]
