//! How names are spelled.

ghost use Rattle.std.specs.Prelude.{◌≡◌, map};
ghost use Rattle.ledger_table.specs.Table.{all_names, name_row};

/// What has such a name, its characters, and how many it has at least and at most.
pub type NameRow = (&'static str, &'static str, u64, u64);

/// All kinds of names. What names the table has all of it in its proof, so this alone does.
pub fn name_rows() -> &'static [NameRow]
    ensures { map name_row result.now ≡ all_names }
{
    &NAMES
}

static NAMES: [NameRow; 2] = [
    ("chaincode", "a-z0-9_-", 1, 32),
    ("organisation", "A-Za-z0-9_", 1, 32),
];
