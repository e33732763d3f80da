ghost use Rattle.std.specs.Prelude.{◌≡◌, ◌↔◌, IsTrue};
ghost use Rattle.topo_rules.specs.Changes.{meanless};

use bson_doc::Text;
use hello_reply::{ServerDescription, Tag};
use host_name::Host;

/// Whether the two texts are equal, or there is none.
pub fn is_same_text(a: &Option<Text>, b: &Option<Text>) -> bool
    ensures { IsTrue result ↔ (a.now ≡ b.now) }
{
    match (a, b) {
        (None, None) => true,
        (Some(a), Some(b)) => a.as_str() == b.as_str(),
        _ => false,
    }
}

fn is_same_host(a: &Option<Host>, b: &Option<Host>) -> bool
    ensures { IsTrue result ↔ (a.now ≡ b.now) }
{
    match (a, b) {
        (None, None) => true,
        (Some(a), Some(b)) => *a == *b,
        _ => false,
    }
}

fn is_same_tag(a: &Tag, b: &Tag) -> bool
    ensures { IsTrue result ↔ (a.now ≡ b.now) }
{
    a.name.as_str() == b.name.as_str() && a.value.as_str() == b.value.as_str()
}

fn are_same_hosts(a: &[Host], b: &[Host]) -> bool
    ensures { IsTrue result ↔ (a.now ≡ b.now) }
{
    a == b
}

fn are_same_tags(a: &[Tag], b: &[Tag]) -> bool
    ensures { IsTrue result ↔ (a.now ≡ b.now) }
{
    if a.len() != b.len() {
        return false;
    }
    for place in 0..a.len() {
        if !is_same_tag(&a[place], &b[place]) {
            return false;
        }
    }
    true
}

fn are_same_names(a: &ServerDescription, b: &ServerDescription) -> bool
    ensures { IsTrue result ↔ ((a.now.host ≡ b.now.host) × (a.now.primary ≡ b.now.primary) × (a.now.me ≡ b.now.me)) }
{
    a.host == b.host && is_same_host(&a.primary, &b.primary) && is_same_host(&a.me, &b.me)
}

fn are_same_sets(a: &ServerDescription, b: &ServerDescription) -> bool
    ensures { IsTrue result ↔ ((a.now.set_name ≡ b.now.set_name) × (a.now.set_version ≡ b.now.set_version) × (a.now.election ≡ b.now.election)) }
{
    is_same_text(&a.set_name, &b.set_name)
        && a.set_version == b.set_version
        && a.election == b.election
}

fn are_same_lists(a: &ServerDescription, b: &ServerDescription) -> bool
    ensures { IsTrue result ↔ ((a.now.listed ≡ b.now.listed) × (a.now.tags ≡ b.now.tags)) }
{
    are_same_hosts(a.listed.as_slice(), b.listed.as_slice())
        && are_same_tags(a.tags.as_slice(), b.tags.as_slice())
}

fn are_same_states(a: &ServerDescription, b: &ServerDescription) -> bool
    ensures { IsTrue result ↔ ((a.now.kind ≡ b.now.kind) × (a.now.version ≡ b.now.version) × (a.now.session_minutes ≡ b.now.session_minutes)) }
{
    a.kind == b.kind && a.version == b.version && a.session_minutes == b.session_minutes
}

fn are_same_wires(a: &ServerDescription, b: &ServerDescription) -> bool
    ensures { IsTrue result ↔ ((a.now.min_wire ≡ b.now.min_wire) × (a.now.max_wire ≡ b.now.max_wire)) }
{
    a.min_wire == b.min_wire && a.max_wire == b.max_wire
}

fn are_same_sizes(a: &ServerDescription, b: &ServerDescription) -> bool
    ensures { IsTrue result ↔ ((a.now.max_doc ≡ b.now.max_doc) × (a.now.max_message ≡ b.now.max_message) × (a.now.max_batch ≡ b.now.max_batch)) }
{
    a.max_doc == b.max_doc && a.max_message == b.max_message && a.max_batch == b.max_batch
}

/// Whether the two descriptions are equal, their means aside.
pub fn is_same_but_mean(a: &ServerDescription, b: &ServerDescription) -> bool
    ensures { IsTrue result ↔ (meanless a.now ≡ meanless b.now) }
{
    are_same_states(a, b)
        && are_same_names(a, b)
        && are_same_sets(a, b)
        && are_same_wires(a, b)
        && are_same_sizes(a, b)
        && are_same_lists(a, b)
}
