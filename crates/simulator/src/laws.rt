//! What is true of every book.

ghost use Rattle.std.specs.Prelude.{◌≡◌, ◌⊎◌};
ghost use Rattle.fab_types.specs.declared.proposal.Proposal.{Proposal};
ghost use Rattle.ledger_model.specs.Execution.{NotInstalled, ReadsAlone};
ghost use Rattle.ledger_model.specs.Views.{Plain};
ghost use Rattle.chaincode_book.specs.Books.{Book};
ghost use Rattle.simulator.specs.Execution.{IsPartOf, exec_of};

use chaincode_book::Book;

/// An execution by a book depends only on what it read: the state has what it read, and on each
/// state that has the same it comes to the same.
pub fn reads_alone(book: &Book)
    ensures { ReadsAlone (exec_of book.now) }
{
    let _valid = book.chaincodes();
    host_api::reads_alone();
    ledger_model::definitions_are_read();
}

/// Who has the same genesis and fewer modules at hand comes to what who has more comes to, or ends
/// as where a module is not at hand (406).
pub fn parts_answer_alike()
    ensures { (part whole : Book) → IsPartOf part whole → (p : Proposal) (m : Plain) →
        (exec_of part p m ≡ exec_of whole p m) ⊎ ((exec_of part p m).ending ≡ NotInstalled) }
{}
