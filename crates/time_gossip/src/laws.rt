//! What holds behind every list of cluster times, as the contract of a function that does nothing.
ghost use Rattle.std.specs.Prelude.{List, None};
ghost use Rattle.bson_doc.specs.declared.cluster_time.ClusterTime.{ClusterTime};
ghost use Rattle.time_gossip.specs.Times.{IsFirstGreatest, kept_behind};

/// Of any list of times that came, the one that is kept is the first of those with the greatest stamp.
pub fn first_of_the_greatest()
    ensures { (came : List ClusterTime) → IsFirstGreatest came (kept_behind None came) }
{}
