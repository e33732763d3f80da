ghost use Rattle.std.specs.Prelude.{◌≡◌, None, nat_lt, true};
ghost use Rattle.std.specs.Option.{option_copied, option_map_or};
ghost use Rattle.time_gossip.specs.Times.{greater};

use bson_doc::ClusterTime;
use std::marker::Model;

/// The greatest cluster time that was seen (Driver Sessions, Gossipping the cluster time). To contracts it is that time, or
/// none. No call takes memory.
#[derive(Drop)]
pub struct TimeGossip {
    greatest: Option<ClusterTime>,
}

impl Model for TimeGossip {
    ghost use Rattle.std.specs.Prelude.{Option};
    ghost use Rattle.std.specs.Coded.{codes};
    ghost use Rattle.bson_doc.specs.contracts.value.Value as value;
    ghost use Rattle.bson_doc.specs.declared.cluster_time.ClusterTime.{ClusterTime};

    ghost Value = { Option ClusterTime };

    ghost coded = { Prim.hlevel (codes, value.the_row.coded) };

    ghost view = { λ g. g.greatest };
}

impl TimeGossip {
    /// A client that has seen no cluster time.
    pub fn new() -> TimeGossip
        ensures none { result ≡ None }
    {
        TimeGossip { greatest: None }
    }

    /// Takes a server's cluster time in: it is kept where its stamp is greater than that of the time that is kept.
    pub fn advance(&mut self, time: ClusterTime)
        ensures greater { self.new ≡ greater self.old time }
    {
        if self.is_below(time.stamp) {
            self.greatest = Some(time);
        }
    }

    /// The greatest cluster time that was seen; None where none was.
    pub fn greatest(&self) -> Option<&ClusterTime>
        ensures kept { option_copied result ≡ self.now }
    {
        self.greatest.as_ref()
    }

    /// Whether no time is kept, or one with a lower stamp.
    fn is_below(&self, stamp: u64) -> bool
        ensures { result ≡ option_map_or (λ kept. nat_lt kept.stamp stamp) self.now true }
    {
        match &self.greatest {
            Some(kept) => kept.stamp < stamp,
            None => true,
        }
    }
}
