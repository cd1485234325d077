//! The holds that are still at a point, as steps take them off.
ghost use Rattle.std.specs.Prelude.{◌≡◌, ◌&&◌, ◌∷◌, [], List};
ghost use Rattle.clr_order.specs.HoldsLeft.{are_undone};
ghost use Rattle.clr_order.specs.declared.action.Action.{Action};

use crate::action::Action;
use std::mem;

/// The holds that are still at a point, the last of them that it is held open.
#[derive(Clone, Copy)]
pub struct HoldsLeft {
    pub tag: bool,
    pub control: bool,
    pub block: bool,
    pub held: bool,
}

impl HoldsLeft {
    /// Whether no hold is left.
    pub fn is_empty(&self) -> bool
        ensures { result ≡ are_undone self.now [] }
    {
        !(self.tag || self.control || self.block || self.held)
    }

    /// Does one action, where it is the turn of the hold that it takes off.
    pub fn take(&mut self, action: Action) -> bool
        ensures { (others : List Action)
            → are_undone self.old (action ∷ others) ≡ (result && are_undone self.new others) }
    {
        match action {
            Action::Untag => mem::replace(&mut self.tag, false),
            Action::Uncontrol => !self.tag && mem::replace(&mut self.control, false),
            Action::Unblock => !self.tag && !self.control && mem::replace(&mut self.block, false),
            Action::Close | Action::Leave => {
                !self.tag && !self.control && !self.block && mem::replace(&mut self.held, false)
            }
            Action::Open | Action::Block | Action::Control | Action::Tag => false,
        }
    }
}
