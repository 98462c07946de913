//! What a grid has whose written wiring gives the same grid again: definitions alone, for the laws above.
#![tactic(auto)]
