//! What an order of objects and a cycle of them are: definitions alone, in `specs/Orders.antt`.
//!
//! The search adds orders to a graph (`order_graph`); the laws of plans and of certificates speak of orders too, and stand on no
//! crate of the search. So the words have a crate of their own, below both.
#![tactic(auto)]
