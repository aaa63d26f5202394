//! The numbers by which the program refuses.

ghost use Rattle.std.specs.Prelude.{◌≡◌, map};
ghost use Rattle.ledger_table.specs.Table.{all_numbers, number_row};

use std::fmt::{self, Display, Formatter, Write};

/// A number, what it stands for, and what to do about it.
pub type NumberRow = (u16, &'static str, &'static str);

/// All numbers, in order. What names the table has all of it in its proof, so this alone does.
pub fn number_rows() -> &'static [NumberRow]
    ensures { map number_row result.now ≡ all_numbers }
{
    &NUMBERS
}

/// What a number stands for, and what to do about it.
#[derive(Clone, Copy)]
pub struct Meaning {
    pub words: &'static str,
    pub advice: &'static str,
}

/// Both, in one sentence.
impl Display for Meaning {
    fn fmt<W: Write>(&self, f: &mut Formatter<W>) -> fmt::Result {
        write!(f, "{}; {}", self.words, self.advice)
    }
}

/// What a number stands for, and what to do about it.
pub fn meaning_of(number: u16) -> Meaning {
    for (row, words, advice) in number_rows() {
        if *row == number {
            return Meaning { words, advice };
        }
    }
    Meaning {
        words: "it is refused",
        advice: "this number has no words",
    }
}

macro_rules! rows {
    ($($number:literal: $words:literal; $advice:literal.)*) => {
        [$(($number, $words, $advice)),*]
    };
}

static NUMBERS: [NumberRow; 70] = rows! {
    9: "there is no memory for it, and nothing has changed"; "do it again when there is some".
    101: "one of the first four bytes is not a module's";
        "give a module in the binary format of WebAssembly".
    102: "one of the four bytes of the version is not a module's";
        "give a module of version 1 of the binary format".
    103: "the bytes, or those of a section or a body, end inside an item; the offset is that end";
        "build the module again: it was cut off".
    104: "a number has too many bytes, or wrong unused bits"; "mend what wrote the module".
    105: "the id of a section is above 11, repeated or out of order"; "mend what wrote the module".
    106: "the length of a section or a body goes past the end of what holds it, or is not all \
        used; the offset is the length's";
        "mend what wrote the module".
    107: "the profile does not have the opcode, or a reserved byte is not 00";
        "compile for the profile: docs/CHAINCODE.md has the flags".
    108: "a type, kind, limits or mutability byte is not a listed one";
        "mend what wrote the module".
    109: "a name is not UTF-8"; "mend the name".
    110: "a type or an instruction is of floats"; "compute with integers only".
    111: "a limit is passed; of a module that is too long the offset is 262,144";
        "make the module smaller: docs/MODULES.md has the limits".
    112: "the counts of functions and bodies differ; the offset is the body count's, or the end if \
        there is no code section";
        "mend what wrote the module".
    113: "the module has a start section"; "do in invoke what its function does".
    201: "the types of operands do not match"; "mend what wrote the module".
    202: "an index names no type, function, local, label, global, table or memory";
        "mend what wrote the module".
    203: "a constant global is written"; "make the global variable".
    204: "an access has an alignment above the width of what it moves";
        "mend what wrote the module".
    205: "two exports have one name"; "rename one of them".
    206: "an import is not a host call of the module fabric with its type";
        "import only the host calls of docs/MODULES.md".
    207: "no function of type [] to [i32] is exported as invoke"; "export one".
    208: "an element segment goes past the least size of the table, or a data segment past that of \
        the memory";
        "make the table or the memory larger".
    209: "the value of a global is not one constant of its type, or the offset of a segment is not \
        one of type i32";
        "mend what wrote the module".
    210: "there are two tables or memories, limits are out of order, or a memory has more than \
        65,536 pages";
        "mend what wrote the module".
    300: "the line of the log is neither tick nor an envelope in hex"; "find out who wrote it".
    301: "the bytes end inside the value"; "find out who wrote them".
    302: "an envelope of a block does not take exactly its length"; "find out who wrote it".
    303: "the bytes are not canonical: items are out of order or outside their range, or a byte is \
        none of those that may stand there";
        "find out who wrote them".
    304: "a length, count, limit, fuel, block number or part of a version is out of its range, or \
        the envelopes of a block are too long together";
        "find out who wrote the bytes".
    305: "bytes are left over after the value"; "find out who wrote them".
    401: "the chaincode has no definition that can be used";
        "see the genesis file, and the chaincode's key in the state".
    402: "the chaincode trapped"; "see the kind of the trap: docs/MODULES.md has them".
    403: "the chaincode spent its fuel";
        "give the chaincode more by the genesis file or an upgrade, or make it do less".
    404: "the chaincode refused the call"; "see its source, which says what its status stands for".
    405: "something that the call read has changed in the peer's newest state"; "call again".
    406: "no module of the definition's digest and profile is installed or at hand";
        "name the module in the genesis file, or give it by --modules".
    407: "the text of the definition is not a policy that it may have";
        "mend the policy: that of a closed definition is over the genesis file's organisations".
    408: "the membership does not have the next serial number, or cannot be used";
        "take the number after the one that `ledger state --members` shows; mend members and \
        policy".
    409: "the call is an amendment, and nobody has said that the organisation agrees";
        "read it, and send it as agreed if the organisation agrees".
    411: "the queue is full"; "take an envelope, and submit again".
    421: "the envelope is larger than the absolute size";
        "split the work, or raise absolute in the genesis file".
    422: "the chain is full: the rules of the ledger allow no further block";
        "go on in a new ledger; what waits stays here".
    431: "the seat got no place at its peer"; "open fewer seats".
    432: "the seat got no snapshot from its peer"; "open the peer again".
    441: "another transaction of the batch read a newer version of a key that this one read";
        "call again by the same nonce, on a newer state".
    442: "the batch has no legal order with this transaction"; "call again by the same nonce".
    451: "the seat has begun a call already"; "finish it, or use another seat".
    452: "there is no such peer or seat"; "see peers and seats in the genesis file".
    453: "nothing was begun at the seat"; "begin first".
    501: "the policy's text goes wrong at this offset, or has more than 1,024 bytes";
        "mend the text".
    502: "the policy names an organisation that is not known";
        "add the organisation, or mend the name".
    503: "a threshold of the policy is 0, or above the number of its children";
        "mend the threshold".
    504: "more than 8 operators of the policy stand inside one another"; "flatten the policy".
    601: "the block does not have the next number";
        "give the blocks in order, from the chain's height plus 1".
    602: "the block is of another chain, or was changed";
        "see which, and take it from the orderer or the log again".
    603: "the data of the block have another hash than its header says";
        "take the block from the orderer or the log again".
    604: "the chain is full: it has 4,000,000,000 blocks"; "go on in a new ledger".
    701: "the store ends inside a record, as after a crash";
        "start `ledger peer`, which cuts the part off, or cut it off yourself".
    702: "the store is damaged";
        "keep the blocks before the damage, and take the others from another peer, the orderer or \
        the log".
    703: "a file cannot be opened, read or written, is not a store or a checkpoint, or another \
        process has it";
        "see to the file, its rights and the disk and try again, or name another file".
    711: "a block of the store has other flags than the rules give";
        "take the store's own genesis file, or that block and those after it again".
    801: "the file is not JSON in UTF-8"; "find the place by any JSON tool".
    802: "a field is missing, unknown or of the wrong kind, or its hex cannot be read";
        "compare the fields with docs/INPUT.md".
    803: "a number, a length, a name or a key is out of its range";
        "see the ranges in docs/INPUT.md".
    804: "a module cannot be decoded by its profile, or is not valid";
        "see what `ledger check MODULE --profile N` says of it".
    805: "a policy is refused by one of 501 to 504"; "mend the policy".
    806: "a name or a public key stands twice, or no organisation has the name";
        "give each a name and a key of its own, and see who stands by `ledger state --members`".
    807: "the log is of another genesis file";
        "take the file that the organisations agreed on, or the log of this one".
    808: "the seed of the organisation's public key is not at hand";
        "name its key file by --keys: `ledger public` prints the public keys of one".
    809: "the file is not a key file"; "compare it with docs/INPUT.md".
};
