ghost use Rattle.std.specs.Prelude.{◌≡◌, ◌++◌, ◌∷◌, [], map, IsTrue, OnOk, OnErr};
ghost use Rattle.caf_types.specs.Name.{is_name};
ghost use Rattle.caf_types.specs.Shape.{tree, field_view, entry_views};
ghost use Rattle.caf_types.specs.Table.{named};

use crate::{Entry, Field, Memory, Name, Seq, Shape};
use sqlite_items::Items;
use std::alloc::Global;

/// Adds a field at the end, of whose name it is known that it is one. After want of memory the
/// fields are as before.
pub fn declare_field(
    alloc: Global,
    fields: &mut Items<Field>,
    name: &str,
    shape: Shape,
) -> Result<(), Memory>
    requires { IsTrue (is_name name.now) }
    ensures added { OnOk result (map field_view fields.new ≡ map field_view fields.old ++ (name.now, tree shape) ∷ []) }
    ensures kept { OnErr result (fields.new ≡ fields.old) }
{
    let name = Name::of(alloc, name)?;
    fields.push(Field { name, shape })?;
    Ok(())
}

/// Adds an entry at the end, of whose name it is known that it is one. After want of memory the
/// entries are as before.
pub fn declare_type(
    alloc: Global,
    entries: &mut Seq<Entry>,
    name: &str,
    shape: Shape,
) -> Result<(), Memory>
    requires { IsTrue (is_name name.now) }
    ensures added { OnOk result (entry_views entries.new ≡ entry_views entries.old ++ named name.now (tree shape) ∷ []) }
    ensures kept { OnErr result (entries.new ≡ entries.old) }
{
    let name = Name::of(alloc, name)?;
    entries.push(Entry { name, shape })?;
    Ok(())
}

/// Adds a block of types to a table, in a function's body:
/// `type_block!(alloc, table, core, 200, { count: Unit, total: { lines: Unsigned, bytes: Unsigned } })`.
///
/// A shape is the name of a plain one, `[shape]` for a list, or `{ name: shape, .. }` for an object.
/// The value is what [`TypeTable::add_block`](crate::TypeTable::add_block) answers. While the shapes
/// are made, want of memory leaves the function by `?`. A text that is no [`Name`] doesn't pass the
/// check.
#[macro_export]
macro_rules! type_block {
    ($alloc:expr, $table:expr, $block:ident, $first:expr, { $($name:ident : $shape:tt),* $(,)? }) => {{
        let mut entries = $crate::Seq::new($alloc);
        $($crate::declare_type($alloc, &mut entries, stringify!($name), $crate::shape_of!($alloc, $shape))?;)*
        $table.add_block($crate::Name::of($alloc, stringify!($block))?, $first, entries)
    }};
}

/// A shape, as [`type_block!`] writes it.
#[macro_export]
macro_rules! shape_of {
    ($alloc:expr, [$item:tt]) => {
        $crate::Shape::list_of($alloc, $crate::shape_of!($alloc, $item))?
    };
    ($alloc:expr, { $($name:ident : $shape:tt),* $(,)? }) => {{
        let mut fields = $crate::Items::new($alloc);
        $($crate::declare_field($alloc, &mut fields, stringify!($name), $crate::shape_of!($alloc, $shape))?;)*
        $crate::Shape::object_of(fields)
    }};
    ($alloc:expr, $plain:ident) => {
        $crate::Shape::$plain
    };
}
