// No code: the words of a file as they are read off the tokens' roles and numbers, and that they are the file of the derivation.
#![tactic(auto)]
