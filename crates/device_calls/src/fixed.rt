//! What no call of a device changes.
use dev_types::Notice;
use std::marker::Model;

/// What no call changes: how many entries the journal takes at most, and what the client was told
/// before the device began. It is for contracts: passes know it, and none is made when the program
/// runs.
#[derive(Drop)]
pub struct Fixed {
    limit: u32,
    notices: Vec<Notice>,
}

impl Model for Fixed {
    ghost use Rattle.device_calls.specs.Sharing.{Given};

    ghost Value = { Given };

    ghost view = { λ f. record { limit = f.limit; notices = f.notices.items } };
}
