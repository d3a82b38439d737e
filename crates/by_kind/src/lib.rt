// Theorems that go kind by kind, since the names of kinds, fields and arguments do: a new kind is a line on each page of specs/. There is no code.
#![tactic(auto)]
