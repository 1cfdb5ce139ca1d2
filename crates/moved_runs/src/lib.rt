//! Two programs, the one carried to the other by a map of places: what must hold of them for their runs to be the same.
#![tactic(auto)]
