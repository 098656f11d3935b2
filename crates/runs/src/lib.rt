// No code: runs that are computed, which show that the claims of crate room say something (docs/ROOM.md).
#![tactic(auto)]
