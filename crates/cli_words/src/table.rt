//! The table of commands. Their usage is written from it, and `clap` reads the words by it.
//!
//! `./ledger` reads the rows too, for a program that is not built yet: their fields stand in this
//! order, each text between quotes.

ghost use Rattle.std.specs.Prelude.{◌≡◌, map};
ghost use Rattle.cli_words.specs.Table.{row_of, row_of_tuple, table};
ghost use Rattle.cli_words.specs.UsageText.{has_name, rows_for};

use std::slice::from_ref;

/// A command.
#[derive(Clone, Copy)]
pub(crate) struct Form {
    pub(crate) name: &'static str,
    /// The names of its words, all of which have to be there.
    pub(crate) words: &'static [&'static str],
    /// The names of its options, and of the value of each, which is empty where there is none.
    pub(crate) options: &'static [(&'static str, &'static str)],
    /// What it does, in lines.
    pub(crate) does: &'static str,
}

/// A row of the table: the fields of a `Form`. Definitions can name a table of tuples alone.
pub(crate) type Row = (
    &'static str,
    &'static [&'static str],
    &'static [(&'static str, &'static str)],
    &'static str,
);

impl Form {
    /// The command of a row.
    pub(crate) fn of(row: &Row) -> Form
        ensures { row_of result ≡ row_of_tuple row.now }
    {
        let (name, words, options, does) = *row;
        Form {
            name,
            words,
            options,
            does,
        }
    }
}

macro_rules! row {
    (name: $name:expr, words: $words:expr, options: $options:expr, does: $does:expr,) => {
        ($name, $words, $options, $does)
    };
}

/// All commands. What names the table has all of it in its proof, so this alone does.
pub(crate) fn rows() -> &'static [Row]
    ensures { map row_of_tuple result.now ≡ table }
{
    &COMMANDS
}

/// The row of the command of a name, or all where none has it.
pub(crate) fn rows_for(name: &str) -> &'static [Row]
    ensures { map row_of_tuple result.now ≡ rows_for name.now table }
{
    let rows = rows();
    for row in rows {
        if has_name(row, name) {
            return from_ref(row);
        }
    }
    rows
}

fn has_name(row: &Row, name: &str) -> bool
    ensures { result ≡ has_name name.now (row_of_tuple row.now) }
{
    row.0 == name
}

static COMMANDS: [Row; 14] = [
    row! {
        name: "check",
        words: &["MODULE"],
        options: &[("profile", "N")],
        does: "\
tells whether the file MODULE is a valid module of profile N: 1, the default, or 2, which
has the sign-extension operators too",
    },
    row! {
        name: "digest",
        words: &["MODULE"],
        options: &[("profile", "N")],
        does: "\
prints the digest of the file MODULE, by which an upgrade names it, where check finds it
valid",
    },
    row! {
        name: "sim",
        words: &["GENESIS", "CHAINCODE", "ARG"],
        options: &[("nonce", "HEX"), ("store", "FILE"), ("modules", "FILE")],
        does: "\
simulates a call of CHAINCODE with the argument ARG (hex, or - for none) on the empty
state, or on that after the store FILE; the nonce is 16 bytes of hex, zeros by default;
here and below, modules of open definitions are looked for in the genesis and in the
modules file of --modules",
    },
    row! {
        name: "run",
        words: &["GENESIS", "EVENTS"],
        options: &[("store", "FILE"), ("modules", "FILE"), ("keys", "FILE")],
        does: "\
runs the events of the file EVENTS, one JSON object a line, on the system that the
file GENESIS opens, and writes the chain of its first peer to the store FILE; peers
of public keys endorse by the seeds of the key file",
    },
    row! {
        name: "threads",
        words: &["GENESIS", "CHAINCODE", "ROUNDS"],
        options: &[("modules", "FILE"), ("keys", "FILE")],
        does: "\
lets each seat of the first peer endorse ROUNDS calls (1 to 1000) of CHAINCODE on a thread
of its own while their blocks are committed, and audits the chain",
    },
    row! {
        name: "audit",
        words: &["GENESIS", "STORE"],
        options: &[("modules", "FILE")],
        does: "\
commits the file STORE again, and runs its VALID transactions again",
    },
    row! {
        name: "show",
        words: &["GENESIS", "STORE"],
        options: &[("from", "N"), ("to", "N"), ("modules", "FILE")],
        does: "\
shows what the genesis sets, the blocks of the file STORE from one number to another (all
by default), and what audit says of it, one JSON object a line",
    },
    row! {
        name: "state",
        words: &["GENESIS", "STORE"],
        options: &[("at", "N"), ("key", "HEX"), ("members", "")],
        does: "\
shows each key of the state after the block of number N (the last one by default), each
write to the key HEX up to it, or who the members are there, one JSON object a line",
    },
    row! {
        name: "trace",
        words: &["GENESIS", "CHAINCODE", "ARG"],
        options: &[("steps", "N")],
        does: "\
shows the first N steps (1 to 1000, 1000 by default) of a call on the empty state, each
with the fuel that it leaves, and how the call ends",
    },
    row! {
        name: "peer",
        words: &["GENESIS", "STORE"],
        options: &[("org", "ORG"), ("keys", "FILE"), ("modules", "FILE")],
        does: "\
reads a log line by line, commits its blocks to the file STORE, and answers between its
lines: it endorses proposals for the organisation ORG by its seed in the key file, and
answers questions about the chain and the state after it",
    },
    row! {
        name: "marks",
        words: &["GENESIS", "STORE"],
        options: &[],
        does: "\
prints the marks by which the blocks of the file STORE are cut from nothing: each envelope
in hex, and tick behind each block",
    },
    row! {
        name: "checkpoint",
        words: &["GENESIS", "STORE", "FILE"],
        options: &[],
        does: "\
commits the file STORE again, writes a checkpoint of its chain to the file FILE, and prints
the checkpoint's height and digest: whoever has the same chain gets the same digest",
    },
    row! {
        name: "public",
        words: &["KEYS"],
        options: &[],
        does: "\
prints the public key of each line of the key file KEYS, in hex",
    },
    row! {
        name: "version",
        words: &[],
        options: &[("table", "")],
        does: "\
prints the numbers of this program, of the lines that it speaks, of the ledger's rules and
of the bytes of stores, as one JSON object; with --table another one, of what each number
and flag stands for, of limits and of names",
    },
];
