//! A reply's cluster time, as an entry of the trail (Driver Sessions, Gossipping the cluster time).
ghost use Rattle.std.specs.Prelude.{◌≡◌, ◌≤◌, IfSome};
ghost use Rattle.wired_trail.specs.Wired.{HasCome};
ghost use Rattle.desk_trail.specs.declared.entry.Entry.TheVariants as entry_of;
ghost use Rattle.desk_trail.specs.Facts as fact;
ghost use Rattle.desk_trail.specs.Written.{an_entry};
ghost use Rattle.legal_trail.specs.Recorded.{Adds};
ghost use Rattle.cmd_step.specs.Times.{MayTell, TellsTime};

use net_link::Net;
use wired_trail::WiredTrail;

/// The reply that was told last carried a cluster time that exceeds the greatest that was seen.
pub fn tell_time<N: Net>(wired: &mut WiredTrail<N>, moment: u64, stamp: u64)
    requires room { 1 ≤ wired.old.trail.room.steps }
    requires may { MayTell wired.old.trail.point moment stamp }
    requires came { N.tells → HasCome (N.history wired.old.net) stamp }
    ensures adds { Adds an_entry wired.old.trail.lists moment (entry_of.Time stamp) (fact.Time stamp) wired.old.trail wired.new.trail }
    ensures same { wired.new ≡ record wired.old { trail = wired.new.trail } }
{
    wired.tell_time(moment, stamp);
}

/// The same, where the reply carried such a time.
pub fn tell_news<N: Net>(wired: &mut WiredTrail<N>, moment: u64, news: Option<u64>)
    requires room { 1 ≤ wired.old.trail.room.steps }
    requires may { IfSome news (MayTell wired.old.trail.point moment) }
    requires came { N.tells → IfSome news (HasCome (N.history wired.old.net)) }
    ensures told { TellsTime moment news wired.old.trail wired.new.trail }
    ensures same { wired.new ≡ record wired.old { trail = wired.new.trail } }
{
    if let Some(stamp) = news {
        tell_time(wired, moment, stamp);
    }
}
