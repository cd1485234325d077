//! Lists of names in their order, each once, in which a name is looked up by halves.
ghost use Rattle.std.specs.Prelude.{◌≡◌, ℕ, IsTrue, List, true};
ghost use Rattle.std.specs.List.Sorted.{IsStrictlySortedBy};
ghost use Rattle.clr_net.specs.Name.{name_cmp};
ghost use Rattle.clr_net.specs.Names.{has_name};

use clr_net::Name;

/// These names in their order, each once.
pub fn in_order(mut names: Vec<Name>) -> Vec<Name>
    ensures rising { IsStrictlySortedBy name_cmp result.items }
    ensures same { (name : List ℕ) → has_name result.items name ≡ has_name names.items name }
{
    names.sort_unstable();
    names.dedup();
    names
}

/// Whether a name is among these.
pub fn is_among(names: &[Name], name: Name) -> bool
    requires { IsStrictlySortedBy name_cmp names.now }
    ensures { result ≡ has_name names.now name }
{
    names.binary_search(&name).is_ok()
}

/// The same, where the name is looked for at a place first. That becomes the place after it, so
/// that names which come in this order are found at once.
pub(crate) fn is_among_from(names: &[Name], at: &mut usize, name: Name) -> bool
    requires { IsStrictlySortedBy name_cmp names.now }
    ensures { result ≡ has_name names.now name }
{
    if is_at(names, *at, name) {
        *at = at.wrapping_add(1);
        return true;
    }
    match names.binary_search(&name) {
        Ok(place) => {
            *at = place.wrapping_add(1);
            true
        }
        Err(_) => false,
    }
}

/// Whether a name is at this place.
fn is_at(names: &[Name], at: usize, name: Name) -> bool
    ensures { IsTrue result → has_name names.now name ≡ true }
{
    match names.get(at) {
        Some(other) => *other == name,
        None => false,
    }
}
