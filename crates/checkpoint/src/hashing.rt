//! A text that is hashed on its way to a writer.

ghost use Rattle.std.specs.Prelude.{◌≡◌, ◌++◌, [], List, ℕ, IfOk, Option, OnOk};
ghost use Rattle.std.specs.Io.KnownBytes.{Appends};
ghost use Rattle.std.specs.List.{AllByRecursion, flat_map};
ghost use Rattle.sha2.specs.Sha256.{sha256};
ghost use Rattle.checkpoint.specs.Hashing.{IsSoFar};

use crate::fault::CheckpointFault;
use crate::item::Item;
use sha2::{Digest, Sha256};
use std::alloc::{AllocError, Global};
use std::io::Write;

/// A piece that is this long does not wait any more.
const PIECE: usize = 65_536;

/// A text on its way to a writer: the hash of what the writer has, and a piece that waits.
#[derive(Drop)]
pub(crate) struct Hashing {
    hasher: Sha256,
    piece: Vec<u8>,
}

impl Hashing {
    /// No text. It takes no memory.
    pub(crate) fn new(alloc: Global) -> Hashing
        ensures { (known : Option (List ℕ)) → IsSoFar known known result [] }
    {
        Hashing {
            hasher: Sha256::new(),
            piece: Vec::new(alloc),
        }
    }

    /// Takes bytes behind the text. The error is of memory.
    pub(crate) fn put(&mut self, bytes: &[u8]) -> Result<(), AllocError>
        ensures { OnOk result
            ((old now : Option (List ℕ)) (text : List ℕ) → IsSoFar old now self.old text →
            IsSoFar old now self.new (text ++ bytes.now)) }
    {
        self.piece.extend_from_slice(bytes)
    }

    /// Gives the writer the piece that waits.
    fn pass_on<W: Write>(&mut self, out: &mut W) -> Result<(), CheckpointFault>
        ensures passed { OnOk result
            ((old : Option (List ℕ)) (text : List ℕ) →
            IsSoFar old (W.contents out.old) self.old text →
            IsSoFar old (W.contents out.new) self.new text) }
        ensures empty { OnOk result (self.new.piece.items ≡ []) }
    {
        self.hasher.update(self.piece.as_slice());
        out.write_all(&self.piece)?;
        self.piece.clear();
        Ok(())
    }

    /// Takes one of a list behind the text, and gives the writer a piece that is long enough.
    pub(crate) fn put_item<T: Item, W: Write>(
        &mut self,
        item: &T,
        out: &mut W,
    ) -> Result<(), CheckpointFault>
        ensures text { OnOk result
            ((old : Option (List ℕ)) (text : List ℕ) →
            IsSoFar old (W.contents out.old) self.old text →
            IsSoFar old (W.contents out.new) self.new (text ++ T.spelling item.now)) }
        ensures within { OnOk result (T.within item.now) }
    {
        item.write(&mut self.piece)?;
        if self.piece.len() >= PIECE {
            self.pass_on(out)?;
        }
        Ok(())
    }

    /// Takes a list behind the text.
    pub(crate) fn put_each<T: Item, W: Write>(
        &mut self,
        items: &[T],
        out: &mut W,
    ) -> Result<(), CheckpointFault>
        ensures text { OnOk result
            ((old : Option (List ℕ)) (text : List ℕ) →
            IsSoFar old (W.contents out.old) self.old text →
            IsSoFar old (W.contents out.new) self.new (text ++ flat_map T.spelling items.now)) }
        ensures within { OnOk result (AllByRecursion T.within items.now) }
    {
        for item in items {
            self.put_item(item, out)?;
        }
        Ok(())
    }

    /// Gives the writer all that waits, and behind it the SHA-256 of the text, which is the answer.
    pub(crate) fn finish<W: Write>(mut self, out: &mut W) -> Result<[u8; 32], CheckpointFault>
        ensures { IfOk result
            (λ digest. (old : Option (List ℕ)) (text : List ℕ) →
            IsSoFar old (W.contents out.old) self text →
            (digest ≡ sha256 text) × Appends old (W.contents out.new) (text ++ digest)) }
    {
        self.pass_on(out)?;
        let digest = self.hasher.finalize();
        out.write_all(&digest)?;
        Ok(digest)
    }
}
