//! Modes by their names, and which preferences are refused.
use bson_doc::{Name, Rows, Text};
use read_pref::{Mode, ReadPref, Tag, TagSet};
use std::alloc::Global;
use std::test::Fail;

/// One tag set, with the tag `dc: a` if it is to have one.
fn sets(alloc: Global, tagged: bool) -> Result<Rows<TagSet>, Fail> {
    let mut tags = Rows::new(alloc);
    if tagged {
        let name = Name::new(Text::take(alloc, "dc")?)?;
        let value = Text::take(alloc, "a")?;
        tags.push(Tag { name, value })?;
    }
    let mut sets = Rows::new(alloc);
    sets.push(tags)?;
    Ok(sets)
}

/// Whether primary is taken beside a tag set, with a tag or without.
fn is_taken(alloc: Global, tagged: bool) -> Result<bool, Fail> {
    Ok(ReadPref::new(Mode::Primary, sets(alloc, tagged)?).is_ok())
}

/// Whether the one tag of the one set is `dc: a`.
fn has_the_tag(sets: &[TagSet]) -> bool {
    let [tags] = sets else {
        return false;
    };
    let [tag] = tags.as_slice() else {
        return false;
    };
    tag.name.as_str() == "dc" && tag.value.as_str() == "a"
}

/// Primary beside a tag is refused, and beside an empty tag set it is not; a copy has the same mode and tags.
#[test]
fn refuses_tags_on_primary(rt: HostRuntime) -> Result<(), Fail> {
    let taken = [is_taken(rt.alloc(), true)?, is_taken(rt.alloc(), false)?];
    let nearest = ReadPref::new(Mode::Nearest, sets(rt.alloc(), true)?)?;
    let copy = nearest.copy(rt.alloc())?;
    let read = (copy.mode(), has_the_tag(copy.tag_sets().as_slice()));
    assert_eq!(rt; taken, [false, true]);
    assert_eq!(rt; read, (Mode::Nearest, true));
    Ok(())
}

/// Names are the standard's, to the letter.
#[test]
fn modes_have_names(rt: HostRuntime) {
    for (name, mode) in [
        ("primary", Some(Mode::Primary)),
        ("primaryPreferred", Some(Mode::PrimaryPreferred)),
        ("secondary", Some(Mode::Secondary)),
        ("secondaryPreferred", Some(Mode::SecondaryPreferred)),
        ("nearest", Some(Mode::Nearest)),
        ("Primary", None),
        ("primarypreferred", None),
        ("", None),
    ] {
        assert_eq!(rt; Mode::from_name(name), mode);
    }
}
