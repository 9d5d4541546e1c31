// Words in lists of bytes, on paper: unsigned 16-bit, low byte first; and signed 32-bit numbers of two words.
#![tactic(auto)]
