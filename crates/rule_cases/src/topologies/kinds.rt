use hello_reply::ServerKind;
use topo_rules::TopoKind;

/// The name of a server's kind.
pub fn server_kind_text(kind: ServerKind) -> &'static str {
    match kind {
        ServerKind::Unknown => "Unknown",
        ServerKind::Standalone => "Standalone",
        ServerKind::Mongos => "Mongos",
        ServerKind::Primary => "Primary",
        ServerKind::Secondary => "Secondary",
        ServerKind::Arbiter => "Arbiter",
        ServerKind::Other => "Other",
        ServerKind::Ghost => "Ghost",
    }
}

/// The name of a topology's kind.
pub fn topology_kind_text(kind: TopoKind) -> &'static str {
    match kind {
        TopoKind::Single => "Single",
        TopoKind::NoPrimary => "NoPrimary",
        TopoKind::WithPrimary => "WithPrimary",
        TopoKind::Sharded => "Sharded",
        TopoKind::Unknown => "Unknown",
    }
}
