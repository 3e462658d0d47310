ghost use Rattle.std.specs.Prelude.{◌≡◌, ℕ, List};
ghost use Rattle.caf_types.specs.Table.{Table, Named, shape_at, name_at, find, with_block, shape_in, name_in, find_in, or_else};

/// What a table tells once a block was added: what it told before, and of other IDs and names what
/// the block tells. So a table only grows.
pub fn block_joins()
    ensures shapes { (t : Table) (block : List ℕ) (first : ℕ) (ns : List Named) (id : ℕ) → shape_at (with_block t block first ns) id ≡ or_else (shape_at t id) (shape_in first ns id) }
    ensures names { (t : Table) (block : List ℕ) (first : ℕ) (ns : List Named) (id : ℕ) → name_at (with_block t block first ns) id ≡ or_else (name_at t id) (name_in first ns id) }
    ensures found { (t : Table) (block : List ℕ) (first : ℕ) (ns : List Named) (name : List ℕ) → find (with_block t block first ns) name ≡ or_else (find t name) (find_in first ns name) }
{}
