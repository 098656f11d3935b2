// No code: laws over the definitions of the disk and of the device that mirror no function.
#![tactic(auto)]
