//! Sets of naturals by their small elements: some numbers of the set, and all naturals above the greatest of them.
//!
//! Such a set is seen as the ascending list of those numbers from 0 on. The one contract that the layer above uses:
//! `is_closed` tells whether the set is closed under sums, and `least_list` is its least number in each residue class.
//! `complement`, `divisors` and `members_up_to` write other conditions on naturals out as such lists.
#![tactic(auto)]

mod fundamental;
mod gaps;
mod least;
mod modular;
mod small;

pub use fundamental::{are_within, divisors};
pub use gaps::{are_below_double, complement};
pub use least::least_list;
pub use modular::members_up_to;
pub use small::{is_closed, least_positive, up_to_conductor};
