//! An election among members, and a member that follows another one.
ghost use Rattle.std.specs.Prelude.{◌≡◌, ◌≢◌, ◌<◌, length, slice_set, IfOk, OnOk, OnErr};
ghost use Rattle.member_core.specs.Members.{elected_log, with_election, with_log};
ghost use Rattle.member_core.specs.Shares.{IsShared};
ghost use Rattle.member_hall.specs.Acts.{log_behind};
ghost use Rattle.member_hall.specs.Halls.{peer_at};

use crate::Memory;
use crate::peer::Peer;

/// The member at a place is elected, behind the last elected one. So many entries at the front of their logs are known to be the
/// same; it answers how many are so then.
pub(crate) fn elect_among(
    peers: &mut [Peer],
    place: usize,
    last: usize,
    number: u64,
    shared: usize,
) -> Result<usize, Memory>
    requires place { place < length peers.old }
    requires last { last < length peers.old }
    requires shared { IsShared shared (peer_at peers.old place).member.log (peer_at peers.old last).member.log }
    ensures ok { OnOk result (peers.new ≡ slice_set peers.old place (record (peer_at peers.old place) { member = with_election (peer_at peers.old place).member (log_behind peers.old last place) number })) }
    ensures found { IfOk result (λ found. IsShared found (elected_log (log_behind peers.old last place) (peer_at peers.old place).member.log) (peer_at peers.old last).member.log) }
    ensures err { OnErr result (peers.new ≡ peers.old) }
{
    if place == last {
        peers[place].stay_elected(number)?;
        return Ok(peers[place].logged());
    }
    if place < last {
        let (front, back) = peers.split_at_mut(last);
        return front[place].elect_behind(&back[0], number, shared);
    }
    let (front, back) = peers.split_at_mut(place);
    back[0].elect_behind(&front[last], number, shared)
}

/// The member at a place follows another one. So many entries at the front of their logs are known to be the same; it answers how
/// many its log has then.
pub(crate) fn follow_among(
    peers: &mut [Peer],
    place: usize,
    last: usize,
    shared: usize,
) -> Result<usize, Memory>
    requires place { place < length peers.old }
    requires last { last < length peers.old }
    requires other { last ≢ place }
    requires shared { IsShared shared (peer_at peers.old place).member.log (peer_at peers.old last).member.log }
    ensures ok { OnOk result (peers.new ≡ slice_set peers.old place (record (peer_at peers.old place) { member = with_log (peer_at peers.old place).member (peer_at peers.old last).member.log })) }
    ensures count { IfOk result (λ count. count ≡ length (peer_at peers.old last).member.log) }
    ensures err { OnErr result (peers.new ≡ peers.old) }
{
    if place < last {
        let (front, back) = peers.split_at_mut(last);
        return front[place].follow(&back[0], shared);
    }
    let (front, back) = peers.split_at_mut(place);
    back[0].follow(&front[last], shared)
}
