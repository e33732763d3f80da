ghost use Rattle.std.specs.Prelude.{◌≡◌, ◌↔◌, IsTrue};
ghost use Rattle.std.specs.Ordering.{as_partial_cmp};
ghost use Rattle.std.specs.Cmp.{partial_order_from_own_ties};
ghost use Rattle.std.specs.Cmp.Rules.{comparing};
ghost use Rattle.std.proofs.Common.{rules};
ghost use Rattle.bson_doc.specs.Ids.{is_same_oid, oid_cmp, is_same_lsid, lsid_cmp};

use std::cmp::Ordering;

/// An ObjectId (bsonspec 1.1, ObjectId): twelve bytes, ordered by them from the first on.
#[derive(Clone, Copy, Debug, Drop)]
pub struct Oid(pub [u8; 12]);

/// The id of a server session (Driver Sessions, lsid): the sixteen bytes of a UUID, ordered by them from the first on.
#[derive(Clone, Copy, Debug, Drop)]
pub struct Lsid(pub [u8; 16]);

impl PartialEq for Oid {
    ghost eq = { is_same_oid };

    ghost laws = { Prim.search (comparing, rules) };

    fn eq(&self, other: &Oid) -> bool
        ensures value { result ≡ is_same_oid self.now other.now }
        ensures same { IsTrue result ↔ (self.now ≡ other.now) }
    {
        self.0 == other.0
    }
}

impl Eq for Oid {
    ghost laws = { Prim.search (comparing, rules) };
}

impl PartialOrd for Oid {
    ghost partial_cmp = { as_partial_cmp oid_cmp };

    ghost laws = { partial_order_from_own_ties (Prim.search (comparing, rules)) (Prim.search (comparing, rules)) };

    fn partial_cmp(&self, other: &Oid) -> Option<Ordering> {
        Some(self.cmp(other))
    }
}

impl Ord for Oid {
    ghost cmp = { oid_cmp };

    ghost total = { Prim.search (comparing, rules) };

    ghost matches_partial_cmp = { Prim.search (comparing, rules) };

    ghost matches_eq = { Prim.search (comparing, rules) };

    fn cmp(&self, other: &Oid) -> Ordering {
        self.0.cmp(&other.0)
    }
}

impl PartialEq for Lsid {
    ghost eq = { is_same_lsid };

    ghost laws = { Prim.search (comparing, rules) };

    fn eq(&self, other: &Lsid) -> bool
        ensures value { result ≡ is_same_lsid self.now other.now }
        ensures same { IsTrue result ↔ (self.now ≡ other.now) }
    {
        self.0 == other.0
    }
}

impl Eq for Lsid {
    ghost laws = { Prim.search (comparing, rules) };
}

impl PartialOrd for Lsid {
    ghost partial_cmp = { as_partial_cmp lsid_cmp };

    ghost laws = { partial_order_from_own_ties (Prim.search (comparing, rules)) (Prim.search (comparing, rules)) };

    fn partial_cmp(&self, other: &Lsid) -> Option<Ordering> {
        Some(self.cmp(other))
    }
}

impl Ord for Lsid {
    ghost cmp = { lsid_cmp };

    ghost total = { Prim.search (comparing, rules) };

    ghost matches_partial_cmp = { Prim.search (comparing, rules) };

    ghost matches_eq = { Prim.search (comparing, rules) };

    fn cmp(&self, other: &Lsid) -> Ordering {
        self.0.cmp(&other.0)
    }
}
