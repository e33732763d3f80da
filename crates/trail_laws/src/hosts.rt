//! Which hosts have numbers.
ghost use Rattle.std.specs.Prelude.{◌≡◌, List, []};
ghost use Rattle.entry_judge.specs.declared.timed.Timed.{Timed};
ghost use Rattle.desk_trail.specs.Clients.{Client};
ghost use Rattle.desk_trail.specs.Facts.{Fact};
ghost use Rattle.desk_trail.specs.Legal.{AreLegal, point_behind};
ghost use Rattle.trail_laws.specs.Numbers.{AreNumbered};

/// Where no entry must come next, each host of the topology has its number: a server stands with its address.
pub fn each_host_of_the_topology_has_its_number()
    ensures { (client : Client) (ts : List (Timed Fact)) → AreLegal client ts → (point_behind client ts).owed ≡ [] → AreNumbered (point_behind client ts).state }
{}
