//! The steps of a lane in a journal, whatever its notes are: definitions and their laws, and no code.
//!
//! To the layers above it gives the words for what one lane did in one journal. Each of its steps stands at a place,
//! which is the journal as the lane found it, and added one note or none. `specs/Steps.antt` says when a journal grew by
//! just these steps of the lane, whatever other lanes did between them. The laws are that such histories join and come
//! apart, that the lane's notes are those of its steps in order, and that its places never fall.
#![tactic(auto)]
