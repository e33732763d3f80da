ghost use Rattle.std.specs.Prelude.{◌≡◌};
ghost use Rattle.std.specs.List.{list_any};
ghost use Rattle.server_pick.specs.Tags.{is_tag as is_tag_lem, fits as fits_lem};

use hello_reply::ServerDescription;
use read_pref::Tag;

/// Whether the server's tag has the name and the value that are asked for.
fn is_tag(asked: &Tag, tag: &hello_reply::Tag) -> bool
    ensures { result ≡ is_tag_lem asked.now tag.now }
{
    tag.name.as_str() == asked.name.as_str() && tag.value.as_str() == asked.value.as_str()
}

/// Whether a server with these tags has the tag.
fn has_tag(asked: &Tag, tags: &[hello_reply::Tag]) -> bool
    ensures { result ≡ list_any (is_tag_lem asked.now) tags.now }
{
    tags.iter().any(|tag| is_tag(asked, tag))
}

/// Whether the server has each of the tags.
pub fn fits(tags: &[Tag], description: &ServerDescription) -> bool
    ensures { result ≡ fits_lem tags.now description.now }
{
    tags.iter()
        .all(|asked| has_tag(asked, description.tags.as_slice()))
}
