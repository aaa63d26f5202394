//! What holds of all who receive one list of blocks.

ghost use Rattle.std.specs.Prelude.{◌≡◌, ◌≢◌, Result, [], ◌∷◌, ◌++◌, List, ℕ};
ghost use Rattle.std.specs.List.{flat_map};
ghost use Rattle.fab_types.specs.declared.block.Block.{Block};
ghost use Rattle.ledger_model.specs.Chain.{Chain};
ghost use Rattle.ledger_model.specs.Judged.{BlockRule};
ghost use Rattle.ledger_model.specs.Serial.{IsPrefix};
ghost use Rattle.committer.specs.Fits.{blocks_of};
ghost use Rattle.block_store.specs.Loading.{Gives};
ghost use Rattle.block_store.specs.Record.{record_bytes};
ghost use Rattle.block_store.specs.declared.end.End.TheVariants.{Clean};
ghost use Rattle.store_replay.specs.Lawful.{AreLawful};
ghost use Rattle.log_committer.specs.Committing.{Commits, IsKnown, Receives, for_memory};
ghost use Rattle.log_committer.specs.declared.receiving.Received.{Received};
ghost use Rattle.log_committer.specs.declared.refusal.ReceiveRefusal.{ReceiveRefusal};

/// What holds of all who receive one list of blocks under one rule, from one chain on. They have
/// the same chain; who has received fewer of them has a beginning of it; and it is the same to
/// receive on from where one stopped. A block that was received is known when it comes again.
///
/// A store of such a chain is lawful, so that it is committed again as it stands, and that is the
/// same as receiving its blocks; behind a lawful chain, lawful records are lawful with it. Two
/// clean stores of one chain have the same bytes.
pub fn peers_agree()
    ensures answer { (rule : BlockRule) (old new other : Chain) (block : Block)
        (a b : Result Received ReceiveRefusal) → a ≢ for_memory → b ≢ for_memory →
        Receives rule old block a new → Receives rule old block b other →
        (a ≡ b) × (new ≡ other) }
    ensures one { (rule : BlockRule) (chain new other : Chain) (blocks : List Block) →
        Commits rule chain blocks new → Commits rule chain blocks other → new ≡ other }
    ensures behind { (rule : BlockRule) (chain new behind : Chain) (front back : List Block) →
        Commits rule chain (front ++ back) new → Commits rule chain front behind →
        IsPrefix behind new }
    ensures onward { (rule : BlockRule) (chain between new : Chain) (front back : List Block) →
        Commits rule chain front between → Commits rule between back new →
        Commits rule chain (front ++ back) new }
    ensures again { (rule : BlockRule) (new : Chain) (front back : List Block) (block : Block) →
        Commits rule [] (front ++ block ∷ back) new → IsKnown new block }
    ensures replayed { (rule : BlockRule) (chain : Chain) (blocks : List Block) →
        Commits rule [] blocks chain → AreLawful rule [] chain }
    ensures restarted { (rule : BlockRule) (chain : Chain) → AreLawful rule [] chain →
        Commits rule [] (blocks_of chain) chain }
    ensures followed { (rule : BlockRule) (chain more : Chain) → AreLawful rule [] chain →
        AreLawful rule chain more → AreLawful rule [] (chain ++ more) }
    ensures same_bytes { (chain : Chain) (bytes : List ℕ) → Gives bytes chain Clean →
        bytes ≡ flat_map record_bytes chain }
{}
