// The promises: what document 01 demands of the collector, over any history of calls since an
// opening. Definitions and theorems alone, no code: a call is one of the collector's own, each is
// handed the state and the lent memory just as the one before left them, and what was stored under a
// number is read off the answers.
#![tactic(auto)]
