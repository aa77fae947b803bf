//! Value trees, which say what a document holds, and what they are written as: definitions and their lemmas alone.
#![tactic(auto)]
