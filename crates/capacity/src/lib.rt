// What the limits leave of a text: how many records its file has, how long it is, and that its integers are in range. Definitions and theorems only.
#![tactic(auto)]
