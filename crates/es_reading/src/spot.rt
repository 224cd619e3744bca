// Where a node is to stand.

use es_base::kind::Kind;
use es_base::table::Place;

/// Where a node is to stand: its place, whether it may be a rest, as the last item of a list may, and
/// whether it is part of an export that has a source.
#[derive(Debug, Clone, Copy, PartialEq, Eq)]
pub struct Spot {
    pub place: Place,
    pub last: bool,
    pub sourced: bool,
}

/// The node whose members are read: its kind, and whether they are part of an export that has a source.
#[derive(Debug, Clone, Copy, PartialEq, Eq)]
pub struct Parent {
    pub kind: Kind,
    pub sourced: bool,
}

/// Where the items of a list are to stand: their place, whether some may be null, and whether they are
/// part of an export that has a source.
#[derive(Debug, Clone, Copy, PartialEq, Eq)]
pub struct Slots {
    pub place: Place,
    pub holes: bool,
    pub sourced: bool,
}
