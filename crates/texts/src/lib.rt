// Read on bytes: what a text comes to, and what is promised of it. Definitions and theorems only.
#![tactic(auto)]
