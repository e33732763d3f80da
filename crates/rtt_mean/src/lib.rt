//! The average round trip time of a server: Server Selection, Calculation of Average Round Trip Times.
//!
//! [`next`] takes the mean so far and one more round trip, and gives the mean with it: an exponentially weighted moving
//! average in which the newest round trip weighs a fifth. Begin with no mean, and begin anew whenever the server
//! becomes Unknown. Times are whole numbers of one unit, microseconds in this product.
//!
//! [`next_extends_mean`] is the law that ties one step to the mean of a list of round trips.
#![tactic(auto)]

mod laws;
mod mean;

pub use laws::next_extends_mean;
pub use mean::next;
