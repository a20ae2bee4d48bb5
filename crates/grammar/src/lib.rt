// The Rust Reference's literals, as definitions: chapter Tokens and chapter Literal expressions. There is no function here.
#![tactic(auto)]
