ghost use Rattle.std.specs.Prelude.{◌≡◌, IfOk};
ghost use Rattle.std.specs.Option.{option_map, option_map_or};
ghost use Rattle.host_name.specs.Addresses.{is_same_address};
ghost use Rattle.topo_rules.specs.Rules.{name_differs as name_differs_lem, me_differs as me_differs_lem};

use crate::Memory;
use bson_doc::Text;
use hello_reply::ServerDescription;
use std::alloc::Global;

/// A copy of the text, if there is one.
pub fn take_text(alloc: Global, text: Option<&str>) -> Result<Option<Text>, Memory>
    ensures { IfOk result (λ copy. copy ≡ option_map (λ t. t.now) text.entry) }
{
    match text {
        None => Ok(None),
        Some(text) => {
            let copy = Text::take(alloc, text)?;
            Ok(Some(copy))
        }
    }
}

/// An equal text, if there is one.
pub fn copy_text(alloc: Global, text: &Option<Text>) -> Result<Option<Text>, Memory>
    ensures { IfOk result (λ copy. copy ≡ text.now) }
{
    match text {
        None => Ok(None),
        Some(text) => {
            let copy = text.copy(alloc)?;
            Ok(Some(copy))
        }
    }
}

/// Whether the topology knows a set name, and what came is another one or none.
pub fn name_differs(known: &Option<Text>, came: &Option<Text>) -> bool
    ensures { result ≡ name_differs_lem known.now came.now }
{
    match (known, came) {
        (None, _) => false,
        (Some(_), None) => true,
        (Some(known), Some(came)) => known.as_str() != came.as_str(),
    }
}

/// Whether `me` is there and is not the server's own host.
pub fn me_differs(description: &ServerDescription) -> bool
    ensures { result ≡ me_differs_lem description.now }
{
    match &description.me {
        None => false,
        Some(me) => *me != description.host,
    }
}
