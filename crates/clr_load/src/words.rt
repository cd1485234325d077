//! The words that tables have for actions, states of steps and roles.
ghost use Rattle.std.specs.Prelude.{◌≡◌};
ghost use Rattle.clr_load.specs.Words.{action_name, action_named, role_word, role_worded};
ghost use Rattle.clr_load.specs.Words.{state_name, state_named};

use clr_order::{Action, StepState};
use clr_staff::Role;

/// All actions, in the order in which they are declared.
const ACTIONS: [Action; 9] = [
    Action::Open,
    Action::Block,
    Action::Control,
    Action::Tag,
    Action::Untag,
    Action::Uncontrol,
    Action::Unblock,
    Action::Close,
    Action::Leave,
];

/// All states of a step, in the order in which they are declared.
const STATES: [StepState; 4] = [
    StepState::Waiting,
    StepState::Instructed,
    StepState::Repeated,
    StepState::Done,
];

/// All roles, in the order in which they are declared.
const ROLES: [Role; 3] = [Role::Operator, Role::Field, Role::Charge];

/// The action's own name, as `Open`.
pub fn action_name(action: Action) -> &'static str
    ensures { result.now ≡ action_name action }
{
    match action {
        Action::Open => "Open",
        Action::Block => "Block",
        Action::Control => "Control",
        Action::Tag => "Tag",
        Action::Untag => "Untag",
        Action::Uncontrol => "Uncontrol",
        Action::Unblock => "Unblock",
        Action::Close => "Close",
        Action::Leave => "Leave",
    }
}

/// The action of this name.
pub fn action_named(word: &str) -> Option<Action>
    ensures { result ≡ action_named word.now }
{
    ACTIONS
        .iter()
        .copied()
        .find(|action| action_name(*action) == word)
}

/// The state's own name, as `Waiting`.
pub fn state_name(state: StepState) -> &'static str
    ensures { result.now ≡ state_name state }
{
    match state {
        StepState::Waiting => "Waiting",
        StepState::Instructed => "Instructed",
        StepState::Repeated => "Repeated",
        StepState::Done => "Done",
    }
}

/// The state of this name.
pub fn state_named(word: &str) -> Option<StepState>
    ensures { result ≡ state_named word.now }
{
    STATES
        .iter()
        .copied()
        .find(|state| state_name(*state) == word)
}

/// The word for a role, as in the file of the staff.
pub fn role_word(role: Role) -> &'static str
    ensures { result.now ≡ role_word role }
{
    match role {
        Role::Operator => "operator",
        Role::Field => "field",
        Role::Charge => "charge",
    }
}

/// The role that a word means.
pub fn role_worded(word: &str) -> Option<Role>
    ensures { result ≡ role_worded word.now }
{
    ROLES.iter().copied().find(|role| role_word(*role) == word)
}
