// Theorems about the definitions of `protocol`. The statements are in specs/Statements.antt, a page to read by itself; there is no code.
#![tactic(auto)]
