// The frame body of document 01, "The frame body": what all of its functions share.
#![tactic(auto)]

pub mod answer;

pub use answer::BodyBits;
