// Parties and who owns what, by number (document 01, "The bench and its parties"). Numbers and no enum: C passes any number,
// and each is judged whole, none cut to a byte before.
#![tactic(auto)]

ghost use Rattle.std.specs.Prelude.{◌≡◌};
ghost use Rattle.parties.specs.Parties.{known_party, is_admin};
ghost use Rattle.parties.specs.Owners.{known_owners, owner_of, owns};

pub const ADMIN: u8 = 0; // document 01: the keeper

pub const LARGEST: u8 = 8;

// Whether there is a party of this number.
#[tactic(auto, unfolding(crate::specs::Parties::known_party))]
pub fn is_known(party: u32) -> bool
    ensures { result ≡ known_party party }
{
    party <= LARGEST as u32
}

#[tactic(auto, unfolding(crate::specs::Parties::is_admin))]
pub fn is_admin(party: u32) -> bool
    ensures { result ≡ is_admin party }
{
    party == ADMIN as u32
}

// Whether every owner is a party.
pub fn are_known(owners: &[u8]) -> bool
    ensures { result ≡ known_owners owners.now }
{
    owners.iter().all(|&owner| owner <= LARGEST)
}

// The owner of a channel. Channel 0 counts as 1, and a channel with no entry as the administrator's.
#[tactic(auto, unfolding(crate::specs::Owners::owner_of))]
fn owner(owners: &[u8], channel: u32) -> u8
    ensures { result ≡ owner_of owners.now channel }
{
    let at = channel.saturating_sub(1) as usize;
    owners.get(at).copied().unwrap_or(ADMIN)
}

// Whether a party owns a channel.
#[tactic(auto, unfolding(crate::specs::Owners::owns))]
pub fn is_owner(owners: &[u8], party: u32, channel: u32) -> bool
    ensures { result ≡ owns owners.now party channel }
{
    party == owner(owners, channel) as u32
}
