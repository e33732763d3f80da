ghost use Rattle.std.specs.Prelude.{◌≡◌, ◌<◌, ◌∷◌, [], ◌++◌, None, T, OnOk, OnErr, IfOk, IfSome, IfNone, HoldsAt, filter, length, not, option_copied, option_map, slice_get, slice_set};
ghost use Rattle.std.specs.FinMap as map;
ghost use Rattle.std.specs.Arc.{arc_value};
ghost use Rattle.hello_reply.specs.Descriptions.{unknown as default_unknown_of};
ghost use Rattle.host_name.specs.Addresses.{address_cmp, is_same_address};
ghost use Rattle.topo_rules.specs.Seen.{by_host, described, seen};

use crate::Memory;
use hello_reply::{ServerDescription, default_unknown};
use host_name::Host;
use std::alloc::Global;
use std::sync::Arc;

/// A description that several topologies may share.
pub type Shared = Arc<ServerDescription, Global>;

/// Shared descriptions, one a host once they are in order.
pub type Table = Vec<Shared>;

/// The description, to be shared.
pub fn share(alloc: Global, description: ServerDescription) -> Result<Shared, Memory>
    ensures { IfOk result (λ shared. arc_value shared ≡ description) }
{
    let shared = Arc::new(alloc, description)?;
    Ok(shared)
}

/// A default Unknown of the host.
pub fn unknown(alloc: Global, host: &Host) -> Result<Shared, Memory>
    ensures { IfOk result (λ shared. arc_value shared ≡ default_unknown_of host.now) }
{
    let description = default_unknown(alloc, host)?;
    share(alloc, description)
}

/// Appends a description.
pub fn append(table: &mut Table, description: Shared) -> Result<(), Memory>
    ensures { OnOk result (described table.new.items ≡ described table.old.items ++ arc_value description ∷ []) }
{
    table.push(description)?;
    Ok(())
}

/// A table that shares the descriptions.
pub fn shared_table(alloc: Global, from: &[Shared]) -> Result<Table, Memory>
    ensures { IfOk result (λ table. described table.items ≡ described from.now) }
{
    let mut table = Vec::with_capacity(alloc, from.len())?;
    for shared in from {
        let copy = Arc::try_clone(shared)?;
        append(&mut table, copy)?;
    }
    Ok(table)
}

/// Puts the table in the order of hosts, and drops each description whose host stands ahead of it. Hosts are compared and
/// never hashed, since a peer names them.
pub fn put_in_order(table: &mut Table) -> Result<(), Memory>
    ensures order { OnOk result (T (map.is_sorted address_cmp (by_host (described table.new.items)))) }
    ensures seen { OnOk result (seen table.new.items ≡ seen table.old.items) }
{
    table.sort_by(|a, b| a.host.cmp(&b.host))?;
    table.dedup_by(|a, b| a.host == b.host);
    Ok(())
}

/// The place of a host's description in a table that is in order.
pub fn place_of(table: &[Shared], host: &Host) -> Option<usize>
    requires { T (map.is_sorted address_cmp (by_host (described table.now))) }
    ensures found { IfSome result (HoldsAt (λ d. d.host ≡ host.now) (described table.now)) }
    ensures within { IfSome result (λ i. i < length table.now) }
    ensures absent { IfNone result (map.get (seen table.now) host.now ≡ None) }
{
    match table.binary_search_by(|shared| shared.host.cmp(host)) {
        Ok(place) => Some(place),
        Err(_) => None,
    }
}

/// What a table has at a place.
pub fn shared_at(table: &[Shared], place: usize) -> Option<&Shared>
    ensures { option_copied result ≡ slice_get table.now place }
{
    table.get(place)
}

/// What a table that is in order has at a host, which is found by halves.
pub fn find_in<'a>(table: &'a [Shared], host: &Host) -> Option<&'a Shared>
    requires { T (map.is_sorted address_cmp (by_host (described table.now))) }
    ensures { option_map (λ s. arc_value s) (option_copied result) ≡ map.get (seen table.now) host.now }
{
    match place_of(table, host) {
        Some(place) => shared_at(table, place),
        None => None,
    }
}

/// Appends the description, unless it is that of the host.
pub fn append_other(table: &mut Table, shared: &Shared, host: &Host) -> Result<(), Memory>
    ensures { OnOk result (described table.new.items ≡ described table.old.items ++ filter (λ d. not (is_same_address d.host host.now)) (arc_value shared.now ∷ [])) }
{
    if shared.host == *host {
        return Ok(());
    }
    let copy = Arc::try_clone(shared)?;
    append(table, copy)
}

/// The table, to be shared.
pub fn share_table(alloc: Global, table: Table) -> Result<Arc<Table, Global>, Memory>
    ensures { IfOk result (λ shared. arc_value shared ≡ table) }
{
    let shared = Arc::new(alloc, table)?;
    Ok(shared)
}

/// Writes a description at a place. A table that has other owners is copied first, with its descriptions shared.
pub fn set_at(
    alloc: Global,
    table: &mut Arc<Table, Global>,
    place: usize,
    description: Shared,
) -> Result<(), Memory>
    requires { place < length (arc_value table.old).items }
    ensures ok { OnOk result (described (arc_value table.new).items ≡ slice_set (described (arc_value table.old).items) place (arc_value description)) }
    ensures err { OnErr result (table.new ≡ table.old) }
{
    match Arc::get_mut(table) {
        Some(sole) => {
            write(sole, place, description);
            Ok(())
        }
        None => {
            let mut copy = shared_table(alloc, table.as_slice())?;
            write(&mut copy, place, description);
            *table = share_table(alloc, copy)?;
            Ok(())
        }
    }
}

/// Writes a description at a place.
fn write(table: &mut Table, place: usize, description: Shared)
    requires { place < length table.old.items }
    ensures { described table.new.items ≡ slice_set (described table.old.items) place (arc_value description) }
{
    table[place] = description;
}
