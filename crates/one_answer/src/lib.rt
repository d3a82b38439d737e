// Theorems: a contract of each form that the library uses leaves one answer. The forms are in specs/Forms.antt, a page to read by itself; there is no code.
#![tactic(auto)]
