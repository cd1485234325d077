//! Laws of the definitions: the contract of each function is the law, and its body is empty.
ghost use Rattle.clr_order.specs.Laws.{EachPointIsMadeSafe, LeastSourceIsNamed, NothingIsUndone};
ghost use Rattle.clr_order.specs.Laws.{OnlyStepTextsAreRead, RestoringOrdersAreAccepted};
ghost use Rattle.clr_order.specs.Laws.{SoundOrdersAreAccepted, SoundOrdersIsolate};
ghost use Rattle.clr_order.specs.Laws.{StepTextsAreRead, SwitchingOrdersAreAccepted};
ghost use Rattle.clr_order.specs.Laws.{UndoingIsTested};

/// No refusal of an isolating order applies exactly where the order is sound, over the fence that
/// the network has when it is cut at the points of the order.
pub fn sound_orders_are_accepted()
    ensures { SoundOrdersAreAccepted }
{}

/// A sound order leaves no way from a source to its work section but over points that it opens,
/// makes inoperable where their design permits it, and tags.
pub fn sound_orders_isolate()
    ensures { SoundOrdersIsolate }
{}

/// Each point of an isolating order is opened and tagged, made inoperable where its design permits
/// that, and tagged at its control where it is controlled from afar: 29 CFR 1910.269(m)(3)(ii),
/// (iii).
pub fn each_point_is_made_safe()
    ensures { EachPointIsMadeSafe }
{}

/// Of the sources inside a fence the one with the least name is named.
pub fn least_source_is_named()
    ensures { LeastSourceIsNamed }
{}

/// No refusal of a restoring order applies exactly where it undoes the holds at each held point.
pub fn restoring_orders_are_accepted()
    ensures { RestoringOrdersAreAccepted }
{}

/// No refusal of a switching order applies exactly where it opens and closes known points.
pub fn switching_orders_are_accepted()
    ensures { SwitchingOrdersAreAccepted }
{}

/// The test of undoing actions, which reads them one by one, is the rule.
pub fn undoing_is_tested()
    ensures tested { UndoingIsTested }
    ensures nothing { NothingIsUndone }
{}

/// The text of a step reads as that action at that point, and nothing else reads as a step.
pub fn step_texts_are_read()
    ensures read { StepTextsAreRead }
    ensures alone { OnlyStepTextsAreRead }
{}
