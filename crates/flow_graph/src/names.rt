use std::hash::Hash;

/// What names nodes and arcs: any type that is copied, compared and hashed. Two names are the same where `==` says so.
pub trait Name: Copy + Ord + Hash {}

impl<T: Copy + Ord + Hash> Name for T {}
