use bson_doc::Text;
use thiserror::Error;

/// Why a JSON value is no document: the first fault in the order of the walk.
///
/// A path leads to what is at fault: the names of members and the places of items, from 0, joined by points.
#[derive(Debug, Drop, Error)]
pub enum TextFault {
    /// The value is no object.
    #[error("the value is no object")]
    Shape,
    /// The number is held as a float, also where its text was an integer that fits neither i64 nor u64.
    #[error("the number is no integer of 64 bits")]
    Fraction { path: Text },
    /// The integer is greater than i64's greatest.
    #[error("the integer is greater than the greatest of 64 bits with a sign")]
    TooBig { path: Text },
    /// The name that the path ends with has a zero byte.
    #[error("a name has a zero byte")]
    Nul { path: Text },
    /// The array or object lies at depth 91; the outermost object has depth 1.
    #[error("arrays and objects lie too deep in one another")]
    Deep { path: Text },
    /// There is not enough memory.
    #[error("out of memory")]
    Memory,
}
