//! One chaincode of the file.

use chaincode_book::Chaincode;
use endorsement_policy::{ChaincodePolicy, ModuleId};

/// One chaincode with the id of its module and its policy, as the file has it.
#[derive(Drop)]
pub(crate) struct Definition {
    pub chaincode: Chaincode,
    pub id: ModuleId,
    pub policy: ChaincodePolicy,
}
