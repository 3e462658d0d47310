/// Tells an object whose fields are those of a struct, in the body of [`Inspect::save`](crate::Inspect::save):
/// `save_fields!(self, saver, { words: Unsigned, name: Text })`.
///
/// A field's kind is the name of a plain shape, or `List` for a [`Seq`](caf_types::Seq) of a type that is
/// `Inspect`. Want of memory leaves the function by `?`.
#[macro_export]
macro_rules! save_fields {
    ($it:expr, $saver:expr, { $($name:ident : $kind:ident),* $(,)? }) => {{
        $saver.object(0 $(+ $crate::one_field!($name))*)?;
        $(
            $saver.field(stringify!($name))?;
            $crate::save_field!($kind, $saver, $it.$name);
        )*
        Ok(())
    }};
}

/// Takes an object whose fields are those of a struct, in the body of [`Inspect::load`](crate::Inspect::load):
/// `load_fields!(alloc, loader, Summary, { words: Unsigned, name: Text })`.
///
/// The kinds are those of [`save_fields!`]. Want of memory leaves the function by `?`.
#[macro_export]
macro_rules! load_fields {
    ($alloc:expr, $loader:expr, $of:ident, { $($name:ident : $kind:ident),* $(,)? }) => {{
        $loader.object();
        $(
            $loader.field(stringify!($name));
            let $name = $crate::load_field!($kind, $alloc, $loader);
        )*
        Ok($of { $($name),* })
    }};
}

/// Tells a value of a field, as [`save_fields!`] does.
#[macro_export]
macro_rules! save_field {
    (Unit, $saver:expr, $value:expr) => {
        $saver.unit()?
    };
    (Flag, $saver:expr, $value:expr) => {
        $saver.flag($value)?
    };
    (Unsigned, $saver:expr, $value:expr) => {
        $saver.unsigned($value)?
    };
    (Signed, $saver:expr, $value:expr) => {
        $saver.signed($value)?
    };
    (Text, $saver:expr, $value:expr) => {
        $saver.text($value.as_str())?
    };
    (Bytes, $saver:expr, $value:expr) => {
        $saver.bytes($value.as_slice())?
    };
    (Place, $saver:expr, $value:expr) => {
        $saver.place($value)?
    };
    (List, $saver:expr, $value:expr) => {
        $crate::save_list(&$value, $saver)?
    };
}

/// Takes a value of a field, as [`load_fields!`] does.
#[macro_export]
macro_rules! load_field {
    (Unit, $alloc:expr, $loader:expr) => {
        $loader.unit()
    };
    (Flag, $alloc:expr, $loader:expr) => {
        $loader.flag()
    };
    (Unsigned, $alloc:expr, $loader:expr) => {
        $loader.unsigned()
    };
    (Signed, $alloc:expr, $loader:expr) => {
        $loader.signed()
    };
    (Text, $alloc:expr, $loader:expr) => {
        $loader.text($alloc)?
    };
    (Bytes, $alloc:expr, $loader:expr) => {
        $loader.bytes($alloc)?
    };
    (Place, $alloc:expr, $loader:expr) => {
        $loader.place()
    };
    (List, $alloc:expr, $loader:expr) => {
        $crate::load_list($alloc, $loader)?
    };
}

/// One, for each field that [`save_fields!`] counts.
#[macro_export]
macro_rules! one_field {
    ($name:ident) => {
        1
    };
}

/// Adds a block with one type to a table, as [`type_block!`](caf_types::type_block) does:
/// `one_type!(alloc, table, demo, 200, summary, { words: Unsigned, name: Text })`.
#[macro_export]
macro_rules! one_type {
    ($alloc:expr, $table:expr, $block:ident, $first:expr, $name:ident, $fields:tt) => {
        caf_types::type_block!($alloc, $table, $block, $first, { $name: $fields })
    };
}
