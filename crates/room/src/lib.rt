// No code: what the device keeps to itself, proved over its definitions (docs/ROOM.md).
#![tactic(auto)]
