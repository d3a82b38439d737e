// Theorems: refused or told need-more, a call leaves what it was lent as it was. The statement is specs/Lent.antt; there is no code.
#![tactic(auto)]
