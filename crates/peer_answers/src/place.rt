//! Whether an organisation can endorse in a state.

ghost use Rattle.std.specs.Prelude.{◌≡◌};
ghost use Rattle.peer_answers.specs.Placing.{place_among};

use endorsement_policy::Standing;
use fab_types::OrgName;
use org_keys::Signers;

/// Whether an organisation can endorse in a state.
#[derive(Clone, Copy)]
pub enum Place {
    /// No member of its name stands there (806).
    Stranger,
    /// No seed is at hand of the key with which it stands there (808).
    Keyless,
    /// It stands there, and what it puts on a payload is right there.
    Stands,
}

/// Whether an organisation can endorse where these stand, with the seeds at hand.
pub(crate) fn find_place(signers: &Signers, standing: &Standing<'_>, org: &OrgName) -> Place
    ensures { result ≡ place_among signers.now standing.now.orgs org.now }
{
    match standing.organisation(org) {
        None => Place::Stranger,
        Some(member) => {
            if signers.has(&member.key) {
                Place::Stands
            } else {
                Place::Keyless
            }
        }
    }
}
