//! What a text says to a reader of CommonMark 0.31.2 with GitHub's tables, strikethrough and task items: definitions,
//! in
//! `specs`, for laws of what is written. There is no code here.
#![tactic(auto)]
