ghost use Rattle.std.specs.Prelude.{◌≡◌, IfOk};

use crate::{Memory, Tag, TagSet};
use bson_doc::Rows;
use std::alloc::Global;

impl Tag {
    /// An equal tag.
    pub fn copy(&self, alloc: Global) -> Result<Tag, Memory>
        ensures { IfOk result (λ t. t ≡ self.now) }
    {
        let name = self.name.copy(alloc)?;
        let value = self.value.copy(alloc)?;
        Ok(Tag { name, value })
    }
}

/// Equal tag sets.
pub(crate) fn copy_sets(alloc: Global, sets: &[TagSet]) -> Result<Rows<TagSet>, Memory>
    ensures { IfOk result (λ copies. copies ≡ sets.now) }
{
    let mut copies = Rows::new(alloc);
    for tags in sets {
        copies.push(copy_tags(alloc, tags.as_slice())?)?;
    }
    Ok(copies)
}

/// Equal tags.
fn copy_tags(alloc: Global, tags: &[Tag]) -> Result<TagSet, Memory>
    ensures { IfOk result (λ copies. copies ≡ tags.now) }
{
    let mut copies = Rows::new(alloc);
    for tag in tags {
        copies.push(tag.copy(alloc)?)?;
    }
    Ok(copies)
}
