// That the words of scratch stand for the state of the definition, and that every move keeps it so, is proved in specs/.
#![tactic(auto)]
