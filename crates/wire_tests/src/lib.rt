//! Tests of the crates of wires: bytes of documents and messages, nets, whole messages over a net, and the run of a
//! script.
//!
//! There is a file for each crate that is tested, as `of_bson_wire` for `bson_wire`: public calls on their happy
//! paths, and what no clause of a contract says. Beside the tests stands [`PiecesNet`](pieces_net::PiecesNet), a net
//! for them. The tests stand apart from the crates that they test, since a crate that has tests is proved once more
//! with them.
#![tactic(auto)]

#[cfg(test)]
mod of_bson_wire;
#[cfg(test)]
mod of_desk_wire;
#[cfg(test)]
mod of_msg_wire;
#[cfg(test)]
mod of_net_link;
#[cfg(test)]
mod of_shell_top;
pub mod pieces_net;
