//! Laws of tags: who takes one, and what has to be done before.
ghost use Rattle.clr_rules.specs.laws.Tags.{OnlyReleasedAreRestored, ReleasedAreGivenBack};
ghost use Rattle.clr_rules.specs.laws.Tags.{TagsAreUntagged};

/// A tag is taken only by the report of an Untag of its own clearance while that is Restoring; only
/// a Released clearance becomes Restoring; and a clearance becomes Released only by its release, or
/// by a cancel of an order that has holds. 29 CFR 1910.269(m)(3)(xii).
pub fn tags_stay_until_untagged()
    ensures untagged { TagsAreUntagged }
    ensures restored { OnlyReleasedAreRestored }
    ensures released { ReleasedAreGivenBack }
{}
