//! The topology of a trail.
ghost use Rattle.std.specs.Prelude.{◌≡◌, List};
ghost use Rattle.entry_judge.specs.declared.timed.Timed.{Timed};
ghost use Rattle.host_name.specs.Addresses.{Address};
ghost use Rattle.rtt_mean.specs.Mean.{mean};
ghost use Rattle.topo_rules.specs.Maps.{kept_mean};
ghost use Rattle.topo_rules.specs.Rules.{opened};
ghost use Rattle.topo_book.specs.Books.{folded};
ghost use Rattle.topo_book.specs.Means.{samples_since};
ghost use Rattle.desk_trail.specs.Clients.{Client};
ghost use Rattle.desk_trail.specs.Facts.{Fact};
ghost use Rattle.desk_trail.specs.Legal.{AreLegal, point_behind};
ghost use Rattle.desk_trail.specs.Parts.{accepted_of};

/// The topology is what the events that were taken in make, in order, of the one of the seeds.
pub fn the_topology_is_of_its_accepted_events()
    ensures { (client : Client) (ts : List (Timed Fact)) → AreLegal client ts
        → (point_behind client ts).state.topology
        ≡ folded (opened client.settings.hosts client.settings.set_name client.settings.direct) (accepted_of ts) }
{}

/// The mean round trip time that is kept of a host is the mean of the samples of the replies that were taken in, in order, since
/// it last stood as Unknown or not at all.
pub fn means_are_of_samples()
    ensures { (client : Client) (ts : List (Timed Fact)) (x : Address) → AreLegal client ts
        → kept_mean (point_behind client ts).state.topology.servers x
        ≡ mean (samples_since (opened client.settings.hosts client.settings.set_name client.settings.direct) (accepted_of ts) x) }
{
    topo_book::mean_is_of_samples();
}
