ghost use Rattle.std.specs.Prelude.{◌≡◌, ◌+◌, ◌-◌, ◌^◌, min};
ghost use Rattle.bson_doc.specs.Documents.{depth_of, depth_inside, greatest};

use crate::{Document, Name, Value};

impl Document {
    /// How deep documents and arrays lie in one another: 1 for a document without any inside, else one more than the
    /// deepest one inside. Past u32's greatest number it stays there.
    #[cycle(depth)]
    pub fn depth(&self) -> u32
        ensures depth { result ≡ min (depth_of self.now) (2 ^ 32 - 1) }
    {
        depth_of_elements(self.elements.as_slice())
    }
}

#[cycle(depth)]
fn depth_of_elements(elements: &[(Name, Value)]) -> u32
    ensures { result ≡ min (1 + greatest (λ e. depth_inside e.1) elements.now) (2 ^ 32 - 1) }
{
    let mut most: u32 = 0;
    for (_, value) in elements {
        most = most.max(depth_of_value(value));
    }
    most.saturating_add(1)
}

#[cycle(depth)]
fn depth_of_items(items: &[Value]) -> u32
    ensures { result ≡ min (1 + greatest depth_inside items.now) (2 ^ 32 - 1) }
{
    let mut most: u32 = 0;
    for value in items {
        most = most.max(depth_of_value(value));
    }
    most.saturating_add(1)
}

#[cycle(depth)]
fn depth_of_value(value: &Value) -> u32
    ensures { result ≡ min (depth_inside value.now) (2 ^ 32 - 1) }
{
    match value {
        Value::Doc(inner) => inner.depth(),
        Value::Scope { code: _, scope } => scope.depth(),
        Value::Array(items) => depth_of_items(items.as_slice()),
        _ => 0,
    }
}
